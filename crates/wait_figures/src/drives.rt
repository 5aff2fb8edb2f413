// The drive of the rows: B 32, k 2, P 1, H 7 and M 8 on zeros. Hidden numbers 0 to 6 are placed in slots 0 to
// 6 by as many writes, and one write without an offer goes after them: the head is 0, and only slot 7 is not
// live.
ghost use Rattle.std.specs.Prelude.{◌≡◌};
ghost use Rattle.wait_figures.specs.Drives.{live_made, live_drive};

use figure_lines::lines::{Put, put_said};
use line_cases::cases::{Start, prepare};

// A line of seven: numbers 0 to 6, each at place 0. A write has one round here, and places one of them.
const SEVEN: u64 = 0x7_0010_2030;

// Makes the drive on a disk of its size, and puts an entry or none.
fn make_live(disk: &mut [u8], put: Option<Put>)
    ensures { disk.new ≡ live_made put disk.old }
{
    let start = Start {
        publics: 1,
        hidden: 7,
        slots: 8,
        entry: 0,
        plain: 0,
        writes: 8,
        last: 0,
        line: SEVEN,
    };
    prepare(disk, start);
    put_said(disk, put);
}

// The drive, with an entry put or none.
pub fn live_drive(put: Option<Put>) -> [u8; 896]
    ensures { result ≡ live_drive put }
{
    let mut disk = [0u8; 896];
    make_live(&mut disk, put);
    disk
}

// Rows of what the call tells of the drive.
ghost use Rattle.std.specs.Prelude.{◌≡◌};
ghost use Rattle.wait_figures.specs.Tells.{wait_holds, wait_agrees};

use crate::drives::live_drive;
use answers_c::waits::Waited;
use figure_lines::lines::{Put, entry_or, part_of, print_count, print_named, print_put};
use figure_lines::output::{Output, put_bytes};
use figure_lines::rows::Row;
use mapper::wait_rounds;

// An entry that is put or none, and the bytes lent; the head, the answer, and the rounds.
#[derive(Clone, Copy)]
pub struct WaitRow(pub Option<Put>, pub usize, pub u32, pub u32, pub u32);

fn print_drive(output: &mut Output, put: Option<Put>, bytes: usize) {
    put_bytes(output, b"live slots 0 to 6");
    print_put(output, put);
    print_named(output, b", ", bytes as u64);
    put_bytes(output, b" bytes:");
}

// Prints the head of a disk, and what the call tells of it; answers whether they agree.
fn ask_wait(output: &mut Output, disk: &[u8], row: WaitRow) -> bool
    ensures { result ≡ wait_holds row disk.now }
{
    let waited = Waited::from(wait_rounds(disk));
    let headed = print_count(output, b" head", row.2, entry_or(disk, 5));
    let answered = print_count(output, b"  wait", row.3, waited.answer);
    let counted = print_count(output, b"  rounds", row.4, waited.rounds);
    headed & answered & counted
}

impl Row for WaitRow {
    ghost agrees = { wait_agrees };

    fn run(self, output: &mut Output) -> bool {
        print_drive(output, self.0, self.1);
        let disk = live_drive(self.0);
        ask_wait(output, part_of(&disk, self.1), self)
    }
}

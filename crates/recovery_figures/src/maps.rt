// Rows of a fresh drive with other map entries and every bit of its bitmap set: what a recovery answers, and
// what it leaves of the bitmap.
ghost use Rattle.std.specs.Prelude.{◌≡◌, ◌≤◌, length};
ghost use Rattle.recovery_figures.specs.Maps.{map_made, map_told, map_agrees};

use crate::listed::format_small;
use crate::tells::{tell_bits, tell_recovery};
use figure_lines::lines::print_named;
use figure_lines::lists::print_entries;
use figure_lines::output::{Output, put_bytes};
use figure_lines::rows::Row;
use layout::entries::put_entry;
use stores::copies::copy_at;

// The head, the map's first four entries and the bytes lent; the answer, and the first two bytes of the
// bitmap, 256 where there are none.
#[derive(Clone, Copy)]
pub struct MapRow(
    pub u32,
    pub u32,
    pub u32,
    pub u32,
    pub u32,
    pub usize,
    pub u32,
    pub u32,
    pub u32,
);

// Makes the drive on a disk of its size.
fn make_map(disk: &mut [u8], row: MapRow)
    requires { 512 ≤ length disk.old }
    ensures { disk.new ≡ map_made row disk.old }
{
    format_small(disk);
    put_entry(disk, 5, row.0);
    put_entry(disk, 8, row.1);
    put_entry(disk, 9, row.2);
    put_entry(disk, 10, row.3);
    put_entry(disk, 11, row.4);
    copy_at(disk, 64, &[255u8; 32]);
}

// Recovers a disk, and prints the answer and the bits; answers whether they agree.
fn tell_map(output: &mut Output, disk: &mut [u8], row: MapRow) -> bool
    ensures { result ≡ map_told row disk.old }
{
    let answered = tell_recovery(output, disk, row.6);
    let marked = tell_bits(output, disk, row.7, row.8);
    answered & marked
}

fn print_map(output: &mut Output, row: MapRow) {
    let entries = [row.1, row.2, row.3, row.4];
    print_named(output, b"fresh, bits set, head ", u64::from(row.0));
    put_bytes(output, b", map");
    print_entries(output, &entries, 4);
    print_named(output, b", ", row.5 as u64);
    put_bytes(output, b" bytes:");
}

impl Row for MapRow {
    ghost agrees = { map_agrees };

    fn run(self, output: &mut Output) -> bool {
        print_map(output, self);
        let mut disk = [0u8; 512];
        make_map(&mut disk, self);
        let count = self.5.min(512);
        tell_map(output, &mut disk[..count], self)
    }
}

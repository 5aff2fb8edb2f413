// The drive of a row: how it is made, two entries that are put after that, and the bytes that are lent of it.
// All are of document 01's geometry, B 32, k 2, P 3, H 2 and M 4, but for those that are moved.
ghost use Rattle.std.specs.Prelude.{◌≡◌, ◌≤◌, length};
ghost use Rattle.figures.specs.Drives.{slot_made, disk_written_on, made_by};
ghost use Rattle.figures.specs.Drives.{row_drive, drive_on, small_drive};

use figure_lines::lines::{Put, print_named, print_put, put_said};
use figure_lines::output::{Output, put_bytes};
use layout::entries::put_entry;
use layout::geometry::Geometry;
use mapper::format_drive;
use recovery_figures::listed::{format_small, write_five, write_line, write_three};

// How a drive is made, from zeros.
#[derive(Clone, Copy)]
pub enum Made {
    // formatted
    Fresh,
    // by entries: public number 0 and hidden number 0 in slot 0, with data that starts with a 7 and an 8
    Slot,
    // by lines 0 -, 0 1 and 1 - of the listing: hidden 1 in slot 1
    Three,
    // by these and lines 2 - and 2 0: hidden 0 in slot 0
    Five,
    // by the first so many of writes 0, 1, 2, 2, 2, ...
    Written(u32),
    // of B 32, k 2, P 1, H 1 and M 100, with two bitmap blocks, by so many writes of number 0
    Moved(u32),
}

// How it is made, and two entries that are put then.
#[derive(Clone, Copy)]
pub struct Drive {
    pub made: Made,
    pub put: Option<Put>,
    pub later: Option<Put>,
}

// A drive with one entry put, or none.
pub fn drive_with(made: Made, put: Option<Put>) -> Drive
    ensures { result ≡ row_drive made put }
{
    Drive {
        made,
        put,
        later: None,
    }
}

const TWO_BITMAPS: Geometry = Geometry {
    block_size: 32,
    height: 2,
    publics: 1,
    hidden: 1,
    slots: 100,
};

// ---- formatted, or by entries ----

fn make_slot(disk: &mut [u8])
    requires { 512 ≤ length disk.old }
    ensures { disk.new ≡ slot_made disk.old }
{
    format_small(disk);
    put_entry(disk, 8, 4);
    put_entry(disk, 16, 1);
    put_entry(disk, 24, 5);
    put_entry(disk, 32, 7);
    put_entry(disk, 40, 6);
    put_entry(disk, 48, 8);
}

// ---- by writes ----

// Writes bytes 7 to numbers 0, 1, 2 and so on up to the last, and then to the last, so many in all.
fn write_times(disk: &mut [u8], times: u32, last: u32)
    ensures { disk.new ≡ disk_written_on times last disk.old }
{
    for i in 0..times {
        write_line(disk, 7, i.min(last), None);
    }
}

// ---- the drive ----

fn make_by(disk: &mut [u8], made: Made)
    requires { 512 ≤ length disk.old }
    ensures { disk.new ≡ made_by made disk.old }
{
    match made {
        Made::Fresh => {
            format_small(disk);
        }
        Made::Slot => {
            make_slot(disk);
        }
        Made::Three => {
            format_small(disk);
            write_three(disk);
        }
        Made::Five => {
            write_five(disk);
        }
        Made::Written(times) => {
            format_small(disk);
            write_times(disk, times, 2);
        }
        Made::Moved(times) => {
            let _ = format_drive(disk, TWO_BITMAPS);
            write_times(disk, times, 0);
        }
    }
}

// Makes the drive on a disk of its size.
pub fn make_drive(disk: &mut [u8], drive: Drive)
    requires { 512 ≤ length disk.old }
    ensures { disk.new ≡ drive_on drive disk.old }
{
    make_by(disk, drive.made);
    put_said(disk, drive.put);
    put_said(disk, drive.later);
}

// The drive on a disk of 512 bytes.
pub fn small_drive(drive: Drive) -> [u8; 512]
    ensures { result ≡ small_drive drive }
{
    let mut disk = [0u8; 512];
    make_drive(&mut disk, drive);
    disk
}

// ---- its label ----

fn print_made(output: &mut Output, made: Made) {
    match made {
        Made::Fresh => put_bytes(output, b"fresh"),
        Made::Slot => put_bytes(output, b"slot 0"),
        Made::Three => put_bytes(output, b"three lines"),
        Made::Five => put_bytes(output, b"five lines"),
        Made::Written(times) => print_named(output, b"writes ", u64::from(times)),
        Made::Moved(times) => print_named(output, b"moves ", u64::from(times)),
    }
}

// Prints how the drive is made, what is put, and the bytes lent.
pub fn print_drive(output: &mut Output, drive: Drive, bytes: usize) {
    print_made(output, drive.made);
    print_put(output, drive.put);
    print_put(output, drive.later);
    print_named(output, b", ", bytes as u64);
    put_bytes(output, b" bytes: ");
}

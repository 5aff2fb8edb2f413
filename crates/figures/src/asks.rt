// Rows of a drive and what it is asked: which drive it is, reads of both volumes, and what a write takes.
ghost use Rattle.std.specs.Prelude.{◌≡◌, get_or};
ghost use Rattle.model.specs.Needs.{needs_of};
ghost use Rattle.questions.specs.Drives.{identity_in};
ghost use Rattle.figures.specs.Asks.{identity_told, identity_agrees};
ghost use Rattle.figures.specs.Asks.{read_refusal, read_of, tells_read, read_agrees};
ghost use Rattle.figures.specs.Asks.{needs_told, needs_agrees};

use crate::drives::{Made, drive_with, print_drive, small_drive};
use answers_c::drives::Identified;
use answers_c::needs::Needs;
use figure_lines::lines::{Put, byte_or, part_of, print_count, print_named};
use figure_lines::output::Output;
use figure_lines::rows::Row;
use layout::numbers::{HiddenNumber, PublicNumber};
use layout::refusals::answer_number;
use mapper::{check_hidden, check_public, hidden_read, identify, public_read, write_needs};

// How the drive is made, an entry put or none, the bytes lent; the answer, B, k, P, H, M and the head.
#[derive(Clone, Copy)]
pub struct IdentityRow(
    pub Made,
    pub Option<Put>,
    pub usize,
    pub u32,
    pub u32,
    pub u32,
    pub u32,
    pub u32,
    pub u32,
    pub u32,
);

// The volume that is read.
#[derive(Clone, Copy)]
pub enum Volume {
    Public,
    Hidden,
}

// How the drive is made, an entry put or none, the bytes lent, the volume that is read, the number and the
// bytes of the blank, which are 9; the answer, and the first byte shown or 256 for none.
#[derive(Clone, Copy)]
pub struct ReadRow(
    pub Made,
    pub Option<Put>,
    pub usize,
    pub Volume,
    pub u32,
    pub usize,
    pub u32,
    pub u32,
);

// How the drive is made, an entry put or none, the number; the answer, rounds, stores, random blocks.
#[derive(Clone, Copy)]
pub struct NeedsRow(
    pub Made,
    pub Option<Put>,
    pub u32,
    pub u32,
    pub u32,
    pub u32,
    pub u32,
);

// ---- which drive it is ----

// Prints what a disk is; answers whether the row agrees.
fn ask_identity(output: &mut Output, disk: &[u8], row: IdentityRow) -> bool
    ensures { result ≡ identity_told row (identity_in disk.now) }
{
    let told = Identified::from(identify(disk));
    let answered = print_count(output, b"identify", row.3, told.answer);
    let sized = print_count(output, b"  block size", row.4, told.block_size);
    let high = print_count(output, b"  height", row.5, told.height);
    let seen = print_count(output, b"  publics", row.6, told.publics);
    let unseen = print_count(output, b"  hidden", row.7, told.hidden);
    let wide = print_count(output, b"  slots", row.8, told.slots);
    let headed = print_count(output, b"  head", row.9, told.head);
    answered & sized & high & seen & unseen & wide & headed
}

impl Row for IdentityRow {
    ghost agrees = { identity_agrees };

    fn run(self, output: &mut Output) -> bool {
        let drive = drive_with(self.0, self.1);
        let bytes = self.2;
        print_drive(output, drive, bytes);
        let disk = small_drive(drive);
        ask_identity(output, part_of(&disk, bytes), self)
    }
}

// ---- reads ----

fn read_fault<'a>(disk: &'a [u8], volume: Volume, number: u32, blank: &'a [u8]) -> u32
    ensures { result ≡ read_refusal volume disk.now number blank.now }
{
    let told = match volume {
        Volume::Public => check_public(disk, PublicNumber(number), blank),
        Volume::Hidden => check_hidden(disk, HiddenNumber(number), blank),
    };
    u32::from(answer_number(told))
}

fn read_first<'a>(disk: &'a [u8], volume: Volume, number: u32, blank: &'a [u8]) -> u32
    ensures { result ≡ get_or (read_of volume disk.now number blank.now) 0 256 }
{
    match volume {
        Volume::Public => byte_or(public_read(disk, PublicNumber(number), blank), 0),
        Volume::Hidden => byte_or(hidden_read(disk, HiddenNumber(number), blank), 0),
    }
}

fn print_read(output: &mut Output, volume: Volume, number: u32, blank: usize) {
    match volume {
        Volume::Public => print_named(output, b"public read ", u64::from(number)),
        Volume::Hidden => print_named(output, b"hidden read ", u64::from(number)),
    }
    print_named(output, b", blank of ", blank as u64);
}

// Prints a read; answers whether the row agrees.
fn ask_read(output: &mut Output, disk: &[u8], row: ReadRow) -> bool
    ensures { result ≡ tells_read row disk.now }
{
    let bytes = [9u8; 33];
    print_read(output, row.3, row.4, row.5);
    let blank = part_of(&bytes, row.5);
    let answered = print_count(output, b"", row.6, read_fault(disk, row.3, row.4, blank));
    let shown = print_count(
        output,
        b"  shows",
        row.7,
        read_first(disk, row.3, row.4, blank),
    );
    answered & shown
}

impl Row for ReadRow {
    ghost agrees = { read_agrees };

    fn run(self, output: &mut Output) -> bool {
        let drive = drive_with(self.0, self.1);
        let bytes = self.2;
        print_drive(output, drive, bytes);
        let disk = small_drive(drive);
        ask_read(output, part_of(&disk, bytes), self)
    }
}

// ---- what a write takes ----

// Prints what a write takes; answers whether the row agrees.
fn ask_needs(output: &mut Output, disk: &[u8], row: NeedsRow) -> bool
    ensures { result ≡ needs_told row (needs_of disk.now row.2) }
{
    print_named(output, b"needs of write ", u64::from(row.2));
    let told = Needs::from(write_needs(disk, PublicNumber(row.2)));
    let answered = print_count(output, b"", row.3, told.answer);
    let ran = print_count(output, b"  rounds", row.4, told.rounds);
    let stored = print_count(output, b"  stores", row.5, told.stores);
    let lent = print_count(output, b"  random blocks", row.6, told.random_blocks);
    answered & ran & stored & lent
}

impl Row for NeedsRow {
    ghost agrees = { needs_agrees };

    fn run(self, output: &mut Output) -> bool {
        let drive = drive_with(self.0, self.1);
        print_drive(output, drive, 512);
        let disk = small_drive(drive);
        ask_needs(output, &disk, self)
    }
}

// Rows of a drive and a write: whether it is refused, and what it answers, stores and lists.
ghost use Rattle.std.specs.Prelude.{◌≡◌, ◌≤◌, take, replicate};
ghost use Rattle.mapper.specs.Writes.{WriteAnswered, brought_by};
ghost use Rattle.figures.specs.Drives.{drive_on};
ghost use Rattle.figures.specs.Writes.{offer_from, fault_agrees, result_of, said_agrees, RowWrote, agrees_on};
ghost use Rattle.figures.specs.Writes.{RowWroteOn, write_agrees, refused_agrees, accepted_agrees};

use crate::drives::{Drive, Made, drive_with, make_drive, print_drive};
use answers_c::writes::Written;
use figure_lines::lines::{Put, part_of, print_count, print_named};
use figure_lines::lists::print_list;
use figure_lines::output::Output;
use figure_lines::rows::Row;
use layout::numbers::{HiddenNumber, PublicNumber};
use layout::refusals::{Refusal, answer_number};
use mapper::{HiddenOffer, check_write, write_block};

// What is offered: the hidden number, and the bytes, which are 9.
#[derive(Clone, Copy)]
pub struct Offered(pub u32, pub usize);

// How the drive is made, an entry put or none, the bytes lent, the number, the bytes of the data, the random
// bytes and the room of the list; the answer. Nothing is offered, and nothing is to be stored.
#[derive(Clone, Copy)]
pub struct RefusedRow(
    pub Made,
    pub Option<Put>,
    pub usize,
    pub u32,
    pub usize,
    pub usize,
    pub usize,
    pub u32,
);

// How the drive is made, an entry put or none, the bytes lent, the number, what is offered or nothing, the
// random bytes and the room of the list; the rounds, the stores, the outcome's number and the addresses
// stored, with zeros after them.
#[derive(Clone, Copy)]
pub struct WriteRow(
    pub Made,
    pub Option<Put>,
    pub usize,
    pub u32,
    pub Option<Offered>,
    pub usize,
    pub usize,
    pub u32,
    pub u32,
    pub u32,
    pub [u32; 17],
);

// The number, the bytes of the data, which are 7, what is offered or nothing, and the random bytes, which are
// 165.
#[derive(Clone, Copy)]
pub struct Write {
    pub number: u32,
    pub content: usize,
    pub offer: Option<Offered>,
    pub random: usize,
}

// What the document says of a write.
#[derive(Clone, Copy)]
pub struct Said {
    pub answer: u32,
    pub rounds: u32,
    pub stores: u32,
    pub outcome: u32,
}

// ---- a write ----

fn print_write(output: &mut Output, write: Write, room: usize) {
    print_named(output, b"write ", u64::from(write.number));
    print_named(output, b" of ", write.content as u64);
    if let Some(Offered(number, bytes)) = write.offer {
        print_named(output, b", offer ", u64::from(number));
        print_named(output, b" of ", bytes as u64);
    }
    print_named(output, b", random bytes ", write.random as u64);
    print_named(output, b", list of ", room as u64);
}

// What the write is refused for, asked without writing.
fn ask_fault<'a>(
    output: &mut Output,
    disk: &'a [u8],
    list: &'a [u32],
    write: Write,
    answer: u32,
) -> bool
    ensures { result ≡ fault_agrees disk.now list.now write answer }
{
    let content = [7u8; 32];
    let random = [165u8; 256];
    let told = answer_number(check_write(
        disk,
        PublicNumber(write.number),
        part_of(&content, write.content),
        part_of(&random, write.random),
        list,
    ));
    print_count(output, b"", answer, u32::from(told))
}

// What is offered: so many of these bytes, or nothing.
fn offer_of<'a>(offer: Option<Offered>, bytes: &'a [u8]) -> Option<HiddenOffer<'a>>
    ensures { brought_by result ≡ offer_from offer bytes.now }
{
    match offer {
        Some(Offered(number, count)) => Some(HiddenOffer {
            number: HiddenNumber(number),
            content: part_of(bytes, count),
        }),
        None => None,
    }
}

fn do_write(disk: &mut [u8], list: &mut [u32], write: Write) -> Result<mapper::Written, Refusal>
    ensures { WriteAnswered (result_of disk.old list.old write)
        disk.old list.old disk.new list.new result }
{
    let content = [7u8; 32];
    let hidden = [9u8; 33];
    let random = [165u8; 256];
    write_block(
        disk,
        PublicNumber(write.number),
        part_of(&content, write.content),
        offer_of(write.offer, &hidden),
        part_of(&random, write.random),
        list,
    )
}

// Prints the four figures of a write; answers whether they agree.
fn print_written(output: &mut Output, said: Said, made: Written) -> bool
    ensures { result ≡ said_agrees said made.answer made.rounds made.stores made.outcome }
{
    let answered = print_count(output, b"  answer", said.answer, made.answer);
    let ran = print_count(output, b"  rounds", said.rounds, made.rounds);
    let stored = print_count(output, b"  stores", said.stores, made.stores);
    let told = print_count(output, b"  outcome", said.outcome, made.outcome);
    answered & ran & stored & told
}

// Writes with a list, and holds what comes of it to what the document says.
fn write_listed(
    output: &mut Output,
    disk: &mut [u8],
    list: &mut [u32],
    write: Write,
    said: Said,
    stored: &[u32],
) -> bool
    ensures { RowWrote write said stored.now disk.old list.old
        disk.new list.new result }
{
    let refused = ask_fault(output, disk, list, write, said.answer);
    let made = do_write(disk, list, write);
    let told = print_written(output, said, Written::from(made));
    let listed = print_list(output, stored, list);
    refused & told & listed
}

// The same with a list of so much room, of entries 99, and with as many stored as are said.
fn write_on(
    output: &mut Output,
    disk: &mut [u8],
    room: usize,
    write: Write,
    said: Said,
    stored: [u32; 17],
) -> bool
    ensures { RowWroteOn room write said stored disk.old disk.new result }
{
    let mut list = [99u32; 23];
    let count = room.min(23);
    let stores = (said.stores as usize).min(17);
    write_listed(
        output,
        disk,
        &mut list[..count],
        write,
        said,
        &stored[..stores],
    )
}

// The same on the first so many bytes of a drive on so many zeros.
fn write_sized<const N: usize>(
    output: &mut Output,
    drive: Drive,
    bytes: usize,
    room: usize,
    write: Write,
    said: Said,
    stored: [u32; 17],
) -> bool
    requires { (512 ≤ N) × (N ≤ 9760) }
    ensures { result ≡ agrees_on room write said stored
        (take bytes (drive_on drive (replicate N 0))) }
{
    let mut disk = [0u8; N];
    make_drive(&mut disk, drive);
    let count = bytes.min(N);
    write_on(output, &mut disk[..count], room, write, said, stored)
}

// The same on as many zeros as the drive takes.
fn write_drive(
    output: &mut Output,
    drive: Drive,
    bytes: usize,
    room: usize,
    write: Write,
    said: Said,
    stored: [u32; 17],
) -> bool
    ensures { result ≡ write_agrees drive bytes room write said stored }
{
    print_drive(output, drive, bytes);
    print_write(output, write, room);
    match drive.made {
        Made::Moved(_) => write_sized::<9760>(output, drive, bytes, room, write, said, stored),
        _ => write_sized::<512>(output, drive, bytes, room, write, said, stored),
    }
}

// ---- rows ----

impl Row for RefusedRow {
    ghost agrees = { refused_agrees };

    fn run(self, output: &mut Output) -> bool {
        let drive = drive_with(self.0, self.1);
        let write = Write {
            number: self.3,
            content: self.4,
            offer: None,
            random: self.5,
        };
        let said = Said {
            answer: self.7,
            rounds: 0,
            stores: 0,
            outcome: 3,
        };
        write_drive(output, drive, self.2, self.6, write, said, [0u32; 17])
    }
}

impl Row for WriteRow {
    ghost agrees = { accepted_agrees };

    fn run(self, output: &mut Output) -> bool {
        let drive = drive_with(self.0, self.1);
        let write = Write {
            number: self.3,
            content: 32,
            offer: self.4,
            random: self.5,
        };
        let said = Said {
            answer: 0,
            rounds: self.7,
            stores: self.8,
            outcome: self.9,
        };
        let stored = self.10;
        write_drive(output, drive, self.2, self.6, write, said, stored)
    }
}

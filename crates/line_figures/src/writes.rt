// Rows of a write with a line, and of reads through the line before and after it.
ghost use Rattle.std.specs.Prelude.{◌≡◌, get_or};
ghost use Rattle.model.specs.Calls.{line_read};
ghost use Rattle.line.specs.Offers.{line_of};
ghost use Rattle.line_figures.specs.Writes.{line_read_agrees, reads_agree, made_agrees, stored_agrees};
ghost use Rattle.line_figures.specs.Writes.{kept_agrees, WrittenOn, line_agrees};

use answers_c::line_writes::{LineWritten, line_written_as};
use figure_lines::lines::{byte_or, entry_or, print_count, print_named};
use figure_lines::lists::print_list;
use figure_lines::output::Output;
use figure_lines::rows::Row;
use layout::numbers::HiddenNumber;
use layout::refusals::answer_number;
use line::offers::Line;
use line_cases::blocks::three_blocks;
use line_cases::cases::{Start, left_after, prepare, print_start, write_with};
use line_cases::lents::print_lent;
use line_cases::offers::{line_by, print_left};
use mapper::{check_hidden_line, hidden_read_line};

// The byte that the disk is filled with, its bytes, P, H, M and the root's first entry; how many writes go
// before with an empty line, how many in all, and the last number that they go to; the line. The answer, the
// rounds, the stores, the outcome's number and how many are placed; the line left, the head, and the
// addresses stored, with 99 after them; of hidden numbers 0 and 1 what a read through the line answers and
// the first byte shown, or 256 for none, before the write and after it; and what lies after it in the line
// that was handed over.
#[derive(Clone, Copy)]
pub struct WriteRow(
    pub u8,
    pub usize,
    pub u32,
    pub u32,
    pub u32,
    pub u32,
    pub u32,
    pub u32,
    pub u32,
    pub u64,
    pub u32,
    pub u32,
    pub u32,
    pub u32,
    pub u32,
    pub u64,
    pub u32,
    pub [u32; 17],
    pub u32,
    pub u32,
    pub u32,
    pub u32,
    pub u64,
);

// ---- reads ----

// The first byte that a read through the line shows, or 256 for none.
fn read_shown<'a>(disk: &'a [u8], line: Line, number: u32, blank: &'a [u8], blocks: &'a [u8]) -> u32
    ensures { result ≡ get_or (line_read disk.now number blank.now
        blocks.now (line_of line)) 0 256 }
{
    byte_or(
        hidden_read_line(disk, HiddenNumber(number), blank, blocks, line),
        0,
    )
}

// Prints a read of a hidden number through the line; answers whether it agrees.
fn print_read(
    output: &mut Output,
    disk: &[u8],
    line: Line,
    number: u32,
    answer: u32,
    shown: u32,
) -> bool
    ensures { result ≡ line_read_agrees disk.now (line_of line) number answer shown }
{
    let blank = [5u8; 32];
    let blocks = three_blocks();
    let fault = answer_number(check_hidden_line(disk, HiddenNumber(number), &blank, &blocks, line));
    let got = read_shown(disk, line, number, &blank, &blocks);
    print_named(output, b"  read ", u64::from(number));
    let answered = print_count(output, b"", answer, u32::from(fault));
    let seen = print_count(output, b"  shows", shown, got);
    answered & seen
}

// The same of hidden numbers 0 and 1.
fn print_reads(output: &mut Output, disk: &[u8], line: Line, row: WriteRow) -> bool
    ensures { result ≡ reads_agree row disk.now (line_of line) }
{
    let zero = print_read(output, disk, line, 0, row.18, row.19);
    let one = print_read(output, disk, line, 1, row.20, row.21);
    zero & one
}

// ---- writes ----

// Prints five figures of a write; answers whether they agree.
fn print_made(output: &mut Output, row: WriteRow, number: u32, made: LineWritten) -> bool
    ensures { result ≡ made_agrees row made.answer made.rounds made.stores made.outcome made.placed }
{
    print_named(output, b"  write ", u64::from(number));
    let answered = print_count(output, b"", row.10, made.answer);
    let ran = print_count(output, b"  rounds", row.11, made.rounds);
    let stored = print_count(output, b"  stores", row.12, made.stores);
    let told = print_count(output, b"  outcome", row.13, made.outcome);
    let placed = print_count(output, b"  placed", row.14, made.placed);
    answered & ran & stored & told & placed
}

// Prints the head and the list after a write; answers whether they agree.
fn print_stored<'a>(output: &mut Output, disk: &'a [u8], list: &'a [u32], row: WriteRow) -> bool
    ensures { result ≡ stored_agrees row disk.now list.now }
{
    let said = row.17;
    let headed = print_count(output, b"  head", row.16, entry_or(disk, 5));
    let listed = print_list(output, &said, list);
    headed & listed
}

// Prints the line that a write leaves, and what then lies in the one that it was handed; answers whether they
// agree.
fn print_kept(output: &mut Output, row: WriteRow, handed: Line, left: Line) -> bool
    ensures { result ≡ kept_agrees row (line_of handed) (line_of left) }
{
    let stay = print_left(output, line_by(row.15), left);
    let lie = print_lent(output, line_by(row.22), handed, left);
    stay & lie
}

// Makes the row's case, reads through the line, writes with it, reads again, and prints what comes of it;
// answers whether it agrees.
fn write_on(output: &mut Output, disk: &mut [u8], row: WriteRow) -> bool
    ensures { WrittenOn row disk.old disk.new result }
{
    let start = Start {
        publics: row.2,
        hidden: row.3,
        slots: row.4,
        entry: row.5,
        plain: row.6,
        writes: row.7,
        last: row.8,
        line: row.9,
    };
    let number = row.7.min(row.8);
    print_start(output, row.0, row.1, start);
    let line = prepare(disk, start);
    let seen = print_reads(output, disk, line, row);
    let mut list = [99u32; 23];
    let made = write_with(disk, number, line, &mut list);
    let left = left_after(line, made);
    let told = print_made(output, row, number, line_written_as(line, made));
    let stored = print_stored(output, disk, &list, row);
    let kept = print_kept(output, row, line, left);
    let shown = print_reads(output, disk, left, row);
    seen & told & stored & kept & shown
}

impl Row for WriteRow {
    ghost agrees = { line_agrees };

    fn run(self, output: &mut Output) -> bool {
        let mut disk = [self.0; 1952];
        let count = self.1.min(1952);
        write_on(output, &mut disk[..count], self)
    }
}

// The case of a row: its drive, and the line once the writes that go before are made.
ghost use Rattle.std.specs.Prelude.{◌≡◌, ◌-◌, length};
ghost use Rattle.model.specs.Promises.LineFigures.{three_blocks};
ghost use Rattle.line.specs.Offers.{line_of};
ghost use Rattle.mapper.specs.Writes.{LineAnswered, told_by_line_write};
ghost use Rattle.line_cases.specs.Cases.{case_drive, written_with, case_on, case_after, case_from};
ghost use Rattle.line_cases.specs.Cases.{CaseLeft};

use crate::blocks::three_blocks;
use crate::offers::{line_by, print_line};
use figure_lines::lines::{print_named, put_on};
use figure_lines::lists::print_entries;
use figure_lines::output::{Output, put_bytes};
use layout::geometry::Geometry;
use layout::numbers::PublicNumber;
use layout::refusals::Refusal;
use line::offers::{Line, no_line};
use mapper::{LineWritten, format_drive, write_line};

// P, H, M and the root's first entry; how many writes go before with an empty line, how many in all, and the
// last number that they go to; and the line.
#[derive(Clone, Copy)]
pub struct Start {
    pub publics: u32,
    pub hidden: u32,
    pub slots: u32,
    pub entry: u32,
    pub plain: u32,
    pub writes: u32,
    pub last: u32,
    pub line: u64,
}

// ---- the drive ----

// Formats a drive of B 32, k 2 and the P, H and M said, and puts the root's first entry.
fn make_drive(disk: &mut [u8], start: Start)
    ensures { disk.new ≡ case_drive start disk.old }
{
    let _ = format_drive(
        disk,
        Geometry {
            block_size: 32,
            height: 2,
            publics: start.publics,
            hidden: start.hidden,
            slots: start.slots,
        },
    );
    put_on(disk, 24, start.entry);
}

// ---- writes ----

// Writes bytes 7 with a line of the three blocks; the random bytes are 165.
pub fn write_with(
    disk: &mut [u8],
    number: u32,
    line: Line,
    list: &mut [u32],
) -> Result<LineWritten, Refusal>
    ensures { LineAnswered
        (written_with disk.old number (line_of line) (length list.old))
        disk.old list.old three_blocks line disk.new list.new result }
{
    let blocks = three_blocks();
    write_line(
        disk,
        PublicNumber(number),
        &[7u8; 32],
        line,
        &blocks,
        &[165u8; 256],
        list,
    )
}

// What a write leaves of a line: all of it, where the write is refused.
pub fn left_after(line: Line, made: Result<LineWritten, Refusal>) -> Line
    ensures { result ≡ (told_by_line_write line made).line }
{
    match made {
        Ok(made) => made.line,
        Err(_) => line,
    }
}

// Makes the writes from one to another of those that go to numbers 0, 1 and so on up to the last and then to
// the last, each with what the one before left of the line; answers what the last one left.
fn carry(disk: &mut [u8], from: u32, to: u32, last: u32, line: Line) -> Line
    ensures { CaseLeft
        (case_after from (to - from) last (case_on disk.old (line_of line))) disk.new result }
{
    let mut left = line;
    for i in from..to {
        let made = write_with(disk, i.min(last), left, &mut [99u32; 23]);
        left = left_after(left, made);
    }
    left
}

// ---- the case ----

// Prints how many bytes the disk has and of which value, the drive, how many writes go before with an empty
// line and in all, and the line.
pub fn print_start(output: &mut Output, fill: u8, bytes: usize, start: Start) {
    let said = [
        start.publics,
        start.hidden,
        start.slots,
        start.entry,
        start.plain,
        start.writes,
    ];
    print_named(output, b"", bytes as u64);
    print_named(output, b" bytes of ", u64::from(fill));
    put_bytes(output, b", P, H, M, root entry, plain writes, all writes:");
    print_entries(output, &said, 6);
    print_line(output, b", line ", line_by(start.line));
}

// Makes the drive, so many writes with an empty line, and then up to so many in all with the line that is
// said; answers what is left of it.
pub fn prepare(disk: &mut [u8], start: Start) -> Line
    ensures { CaseLeft (case_from start disk.old) disk.new result }
{
    make_drive(disk, start);
    carry(disk, 0, start.plain, start.last, no_line());
    carry(
        disk,
        start.plain,
        start.writes,
        start.last,
        line_by(start.line),
    )
}

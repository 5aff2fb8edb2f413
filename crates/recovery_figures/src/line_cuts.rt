// Rows of the same write with a line in the place of the offer: hidden 0, data 8, and behind it hidden 1,
// data 9.
ghost use Rattle.std.specs.Prelude.{◌≡◌};
ghost use Rattle.recovery_model.specs.Cuts.{cut_disk};
ghost use Rattle.line.specs.declared.offers.Line.{Line};
ghost use Rattle.mapper.specs.Cuts.{cut_answer_of, line_cut_answer_of};
ghost use Rattle.recovery_figures.specs.LineCuts.{two_blocks, line_pulled_on, line_cut_told};
ghost use Rattle.recovery_figures.specs.LineCuts.{line_mended_told, line_cut_agrees};

use crate::listed::five_lines;
use crate::tells::{hidden_first, tell_recovery};
use answers_c::cuts::Cut;
use figure_lines::lines::{print_count, print_figure, print_named};
use figure_lines::output::Output;
use figure_lines::rows::Row;
use layout::numbers::PublicNumber;
use layout::refusals::Refusal;
use line::offers::{Line, held};
use line_cases::offers::line_by;
use mapper::{CutWritten, LineCutWritten, write_line_cut};

// After how many stores it is cut; how many it makes, whether it is cut, how many still wait in the
// line; and after the recovery the first byte of hidden 0 and of hidden 1.
#[derive(Clone, Copy)]
pub struct LineCutRow(pub usize, pub u32, pub bool, pub u64, pub u32, pub u32);

// In hex digits how many wait, and number and place of each.
const ZERO_ONE: u64 = 0x2_0011_0000;

// The blocks that are lent, of bytes 8 and 9.
const BLOCKS: [u8; 64] = [
    8, 8, 8, 8, 8, 8, 8, 8, 8, 8, 8, 8, 8, 8, 8, 8, 8, 8, 8, 8, 8, 8, 8, 8, 8, 8, 8, 8, 8, 8, 8, 8,
    9, 9, 9, 9, 9, 9, 9, 9, 9, 9, 9, 9, 9, 9, 9, 9, 9, 9, 9, 9, 9, 9, 9, 9, 9, 9, 9, 9, 9, 9, 9, 9,
];

fn two_blocks() -> [u8; 64]
    ensures { result ≡ two_blocks }
{
    BLOCKS
}

// ---- the write ----

// What it tells of the stores alone.
fn cut_of(made: Result<LineCutWritten, Refusal>) -> Result<CutWritten, Refusal>
    ensures { (line : Line) → cut_answer_of result ≡ (line_cut_answer_of line made).told }
{
    made.map(|made| made.cut)
}

// What a write that is cut leaves of a line: all of it, where it is refused.
fn left_after_cut(line: Line, made: Result<LineCutWritten, Refusal>) -> Line
    ensures { result ≡ (line_cut_answer_of line made).line }
{
    match made {
        Ok(made) => made.line,
        Err(_) => line,
    }
}

// Makes the first so many stores of the write, and prints what it tells; answers whether that agrees.
fn tell_line_cut(output: &mut Output, disk: &mut [u8], row: LineCutRow) -> bool
    ensures told { result ≡ line_cut_told row disk.old }
    ensures stored { disk.new ≡
        cut_disk row.0 (line_pulled_on disk.old) disk.old }
{
    let blocks = two_blocks();
    let line = line_by(ZERO_ONE);
    let made = write_line_cut(
        disk,
        PublicNumber(0),
        &[8u8; 32],
        line,
        &blocks,
        &[165u8; 256],
        &mut [99u32; 23],
        row.0,
    );
    let told = Cut::from(cut_of(made));
    let left = left_after_cut(line, made);
    let counted = print_count(output, b": stores", row.1, told.stores);
    let ended = print_count(output, b"  is cut", u32::from(row.2), told.cut);
    let waits = print_figure(output, b"  waiting", row.3, held(left) as u64);
    counted & ended & waits
}

// ---- the recovery ----

// Recovers a disk, and prints what it shows; answers whether it agrees.
fn tell_line_mended(output: &mut Output, disk: &mut [u8], row: LineCutRow) -> bool
    ensures { result ≡ line_mended_told row disk.old }
{
    let answered = tell_recovery(output, disk, 0);
    let first = print_count(output, b"  hidden 0 shows", row.4, hidden_first(disk, 0));
    let second = print_count(output, b"  hidden 1 shows", row.5, hidden_first(disk, 1));
    answered & first & second
}

// ---- rows ----

impl Row for LineCutRow {
    ghost agrees = { line_cut_agrees };

    fn run(self, output: &mut Output) -> bool {
        print_named(
            output,
            b"five lines, write 0 with a line of 0 and 1 cut after ",
            self.0 as u64,
        );
        let mut disk = five_lines();
        let told = tell_line_cut(output, &mut disk, self);
        let mended = tell_line_mended(output, &mut disk, self);
        told & mended
    }
}

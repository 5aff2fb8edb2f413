// Where the block of a hidden number stands where offers wait in a lent line (document 02, K3), for C.
ghost use Rattle.model.specs.Line.{handed_over};
ghost use Rattle.model.specs.Calls.{line_read};
ghost use Rattle.line.specs.Offers.{offers_of, line_of};
ghost use Rattle.mapper_c.specs.LineFinds.{found_in_line, LineFound};

use answers_c::finds::Found;
use layout::numbers::HiddenNumber;
use lent_line::load_lent;
use line::offers::{Line, Offer};
use line_calls::finds::find_hidden_line;

// Finds the block of a hidden number where the offers of a line by value wait.
fn find_held(disk: &[u8], number: u32, blank: &[u8], blocks: &[u8], line: Line) -> Found
    ensures { LineFound
        (found_in_line disk.now number blank.now blocks.now (line_of line))
        (line_read disk.now number blank.now blocks.now (line_of line))
        disk.now blank.now blocks.now result }
{
    Found::from(find_hidden_line(disk, HiddenNumber(number), blank, blocks, line))
}

// Finds the block of a hidden number where offers of the lent line wait. The block at the address, which lies
// wholly on the disk or among the lent blocks, or the blank is what a read through the line shows.
#[unsafe(no_mangle)]
pub extern "C" fn pddm_hidden_find_line(
    disk: &[u8],
    number: u32,
    blank: &[u8],
    blocks: &[u8],
    line: &[Offer],
    waiting: u32,
) -> Found
    ensures { LineFound
        (found_in_line disk.now number blank.now blocks.now
        (handed_over waiting (offers_of line.now)))
        (line_read disk.now number blank.now blocks.now
        (handed_over waiting (offers_of line.now)))
        disk.now blank.now blocks.now result }
{
    let held = load_lent(line, waiting);
    find_held(disk, number, blank, blocks, held)
}

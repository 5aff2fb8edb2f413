// The hidden read through a line, and its refusals.
ghost use Rattle.std.specs.Prelude.{◌≡◌};
ghost use Rattle.model.specs.Calls.{line_read_refusal, line_read};
ghost use Rattle.layout.specs.Refusals.{answer_number};
ghost use Rattle.line.specs.Offers.{line_of};

use crate::finds::{find_hidden_line, show_line};
use layout::numbers::HiddenNumber;
use layout::refusals::Refusal;
use line::offers::Line;

// 1 to 3, 10 and 11 of a hidden read through a line, 12 where no block waits under the number.
pub fn check_hidden_line(
    disk: &[u8],
    number: HiddenNumber,
    blank: &[u8],
    blocks: &[u8],
    line: Line,
) -> Result<(), Refusal>
    ensures { answer_number result ≡ line_read_refusal
        disk.now number.0 blank.now blocks.now (line_of line) }
{
    find_hidden_line(disk, number, blank, blocks, line)?;
    Ok(())
}

// The block that waits under a hidden number, as a part of the lent blocks, else its block on the disk; the
// blank for a number never placed; an empty part of the blank where the read is refused.
pub fn hidden_read_line<'a>(
    disk: &'a [u8],
    number: HiddenNumber,
    blank: &'a [u8],
    blocks: &'a [u8],
    line: Line,
) -> &'a [u8]
    ensures { result.now ≡ line_read
        disk.now number.0 blank.now blocks.now (line_of line) }
{
    show_line(
        disk,
        blank,
        blocks,
        find_hidden_line(disk, number, blank, blocks, line),
    )
}

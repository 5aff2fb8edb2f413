// Where the block of a hidden number is, where offers wait; and what a read shows of it.
ghost use Rattle.std.specs.Prelude.{◌≡◌};
ghost use Rattle.line.specs.Offers.{line_of};
ghost use Rattle.line_calls.specs.Finds.{line_find_of, line_find, FoundInside};
ghost use Rattle.line_calls.specs.Finds.{shown_line_find};

use checks::numbers::check_hidden_number;
use layout::blocks::lent_block;
use layout::drives::open_drive;
use layout::geometry::geometry_in;
use layout::numbers::{DiskAddress, HiddenNumber};
use layout::refusals::Refusal;
use line::offers::Line;
use line::waiting::waiting_for;
use reads::finds::{find_hidden, show};

// Where a hidden number's block is: nowhere, as it was never placed, at an address of the drive, or at a
// place among the lent blocks.
#[derive(Clone, Copy, PartialEq, Eq)]
pub enum LineFind {
    Blank,
    Drive(DiskAddress),
    Lent(u32),
}

// Where a hidden number's block is: at the place of its first offer in the line, where that counts on this
// drive, else where a read without a line finds it. 1 to 3, 10 and 11 where a read with this blank is
// refused, and 12 where no block waits.
pub fn find_hidden_line(
    disk: &[u8],
    number: HiddenNumber,
    blank: &[u8],
    blocks: &[u8],
    line: Line,
) -> Result<LineFind, Refusal>
    ensures { line_find_of result ≡
        line_find disk.now number.0 blank.now blocks.now (line_of line) }
{
    let geometry = open_drive(disk)?;
    check_hidden_number(geometry, number, blank.len())?;
    match waiting_for(line, geometry, blocks.len(), number) {
        Some(offer) => Ok(LineFind::Lent(offer.place)),
        None => match find_hidden(disk, number, blank)? {
            Some(address) => Ok(LineFind::Drive(address)),
            None => Ok(LineFind::Blank),
        },
    }
}

// What a read shows of a find: its block, as a part of the lent blocks or of the disk; the blank for a number
// never placed; an empty part of the blank where it is refused.
pub fn show_line<'a>(
    disk: &'a [u8],
    blank: &'a [u8],
    blocks: &'a [u8],
    find: Result<LineFind, Refusal>,
) -> &'a [u8]
    requires { FoundInside (line_find_of find) disk.now blocks.now }
    ensures { result.now ≡
        shown_line_find (line_find_of find) disk.now blank.now blocks.now }
{
    match find {
        Err(_) => &blank[..0],
        Ok(LineFind::Blank) => blank,
        Ok(LineFind::Drive(address)) => show(disk, blank, Ok(Some(address))),
        Ok(LineFind::Lent(place)) => lent_block(blocks, geometry_in(disk), place),
    }
}

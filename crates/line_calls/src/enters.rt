// An offer that enters a line.
ghost use Rattle.line.specs.Offers.{offer_of};
ghost use Rattle.line_calls.specs.Enters.{EnterAnswered};

use layout::drives::open_drive;
use layout::refusals::Refusal;
use line::changes::{check_offer, check_room, with_offer};
use line::offers::{Line, Offer};

// The line with an offer, whose place is among these blocks, in its number's turn, or at the end, where so
// many offers of the line are lent. 1 to 3, 10, 11 and 16 where it is refused: then the line is as it was.
pub fn enter_line(
    disk: &[u8],
    offer: Offer,
    blocks: &[u8],
    line: Line,
    room: usize,
) -> Result<Line, Refusal>
    ensures { EnterAnswered disk.now (offer_of offer) blocks.now line room result }
{
    let geometry = open_drive(disk)?;
    check_offer(geometry, offer, blocks.len())?;
    check_room(line, offer.number, room)?;
    Ok(with_offer(line, offer))
}

// What changes a line: an offer that enters, and those that leave.
ghost use Rattle.std.specs.Prelude.{◌≡◌, length, take};
ghost use Rattle.laws.specs.Checks.{first_of};
ghost use Rattle.model.specs.Geometry.{Fits};
ghost use Rattle.model.specs.Blocks.{Bytes};
ghost use Rattle.model.specs.Line.{most_offers, line_offer_refusal, room_checks, with_offer, left_after};
ghost use Rattle.layout.specs.Geometries.{geometry_of};
ghost use Rattle.layout.specs.Refusals.{answer_number};
ghost use Rattle.line.specs.Offers.{offer_of, offers_of, line_of};

use crate::numbers::{find_number, is_one_of};
use crate::offers::{Line, Offer, held, no_line, push_offer, waiting_offers};
use layout::geometry::Geometry;
use layout::numbers::HiddenNumber;
use layout::refusals::Refusal;

// 10 or 11 of an offer where so many bytes of blocks are lent.
pub fn check_offer(g: Geometry, offer: Offer, lent: usize) -> Result<(), Refusal>
    requires { Fits (geometry_of g) }
    ensures { (blocks : Bytes) → length blocks ≡ lent →
        answer_number result ≡ line_offer_refusal (geometry_of g) blocks (offer_of offer) }
{
    let hidden = g.hidden;
    let asked = offer.number.0;
    if hidden <= asked {
        return Err(Refusal::HiddenNumber);
    }
    let count = lent / (g.block_size as usize);
    if count <= offer.place as usize {
        return Err(Refusal::HiddenSize);
    }
    Ok(())
}

// 16 of a hidden number, for a lent line of so many offers.
pub fn check_room(line: Line, number: HiddenNumber, room: usize) -> Result<(), Refusal>
    ensures { answer_number result ≡ first_of (room_checks (line_of line) number.0 room) }
{
    if find_number(line, number).is_some() {
        return Ok(());
    }
    let most = held(line);
    if 16 <= most {
        return Err(Refusal::LineFull);
    }
    if room <= most {
        return Err(Refusal::LineFull);
    }
    Ok(())
}

// The line with an offer in its number's turn, or at the end; as it is where 16 wait and none of the number.
pub fn with_offer(mut line: Line, offer: Offer) -> Line
    ensures { line_of result ≡ take most_offers (with_offer (offer_of offer) (line_of line)) }
{
    match find_number(line, offer.number) {
        Some(index) => {
            line.offers[index] = offer;
            line
        }
        None => push_offer(line, offer),
    }
}

// The line without the offers of these ones' numbers.
pub fn left_of(line: Line, gone: &[Offer]) -> Line
    ensures { line_of result ≡ left_after (offers_of gone.now) (line_of line) }
{
    if gone.is_empty() {
        return line;
    }
    let offers = waiting_offers(&line);
    let mut left = no_line();
    for offer in offers {
        if !is_one_of(offer.number, gone) {
            left = push_offer(left, *offer);
        }
    }
    left
}

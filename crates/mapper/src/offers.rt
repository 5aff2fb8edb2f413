// The hidden write that document 01's write may be offered: its refusal, and its turn.
ghost use Rattle.std.specs.Prelude.{◌≡◌};
ghost use Rattle.model.specs.Calls.{offer_refusal};
ghost use Rattle.layout.specs.Geometries.{geometry_of};
ghost use Rattle.layout.specs.Refusals.{answer_number};
ghost use Rattle.mapper.specs.Writes.{brought_by, offer_count, OfferLent};

use checks::numbers::check_hidden_number;
use layout::geometry::Geometry;
use layout::numbers::HiddenNumber;
use layout::refusals::Refusal;

// A hidden number, and the data that is offered for it.
#[derive(Clone, Copy)]
pub struct HiddenOffer<'a> {
    pub number: HiddenNumber,
    pub content: &'a [u8],
}

// 10 or 11 of a hidden write that is offered; nothing of a good one and of none.
pub fn check_offered(g: Geometry, offer: Option<HiddenOffer>) -> Result<(), Refusal>
    ensures { answer_number result ≡ offer_refusal (geometry_of g) (brought_by offer.entry) }
{
    match offer {
        Some(write) => check_hidden_number(g, write.number, write.content.len()),
        None => Ok(()),
    }
}

// How many turns it brings to the rounds: one, where it is offered and 10 and 11 do not meet it.
pub fn offer_count(offer: Option<HiddenOffer>, judged: Result<(), Refusal>) -> usize
    ensures { result ≡ offer_count offer.entry (answer_number judged) }
{
    match judged {
        Ok(()) => usize::from(offer.is_some()),
        Err(_) => 0,
    }
}

// What is offered, as the rounds are lent it; number 0 and no data where nothing is.
pub fn write_or_none<'a>(offer: Option<HiddenOffer<'a>>) -> HiddenOffer<'a>
    ensures { OfferLent offer.entry result.number.0 result.content.now }
{
    match offer {
        Some(write) => write,
        None => HiddenOffer {
            number: HiddenNumber(0),
            content: &[],
        },
    }
}

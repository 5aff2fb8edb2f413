// The hidden write that a call may be offered, as C lends it.
ghost use Rattle.std.specs.Prelude.{◌≡◌};
ghost use Rattle.mapper.specs.Writes.{call_offer, brought_by};

use layout::numbers::HiddenNumber;
use mapper::HiddenOffer;

// A hidden number and its data, where they are offered.
pub fn lent_offer<'a>(offered: bool, number: u32, content: &'a [u8]) -> Option<HiddenOffer<'a>>
    ensures { brought_by result ≡ call_offer offered number content.now }
{
    let offer = HiddenOffer {
        number: HiddenNumber(number),
        content,
    };
    offered.then_some(offer)
}

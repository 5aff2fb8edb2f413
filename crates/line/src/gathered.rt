// A line that is lent as two runs of numbers: the hidden numbers, and the places of their blocks.
ghost use Rattle.std.specs.Prelude.{◌≡◌};
ghost use Rattle.model.specs.Line.{handed_over};
ghost use Rattle.line.specs.Offers.{line_of};
ghost use Rattle.line.specs.Gathered.{offers_by};

use crate::offers::{Line, Offer, add_offer, no_line};
use layout::numbers::HiddenNumber;

// The line that they hand over: the first so many offers, as far as both runs go, at most 16.
pub fn gather_line(numbers: &[u32], places: &[u32], waiting: u32) -> Line
    ensures { line_of result ≡ handed_over waiting (offers_by numbers.now places.now) }
{
    let most = numbers.len().min(16).min(waiting as usize);
    let mut line = no_line();
    for (number, place) in numbers[..most].iter().zip(places) {
        let offer = Offer {
            number: HiddenNumber(*number),
            place: *place,
        };
        add_offer(&mut line, offer);
    }
    line
}

// Where a number stands in a line.
ghost use Rattle.std.specs.Prelude.{◌≡◌};
ghost use Rattle.model.specs.Line.{is_waiting_in};
ghost use Rattle.line.specs.Offers.{offers_of, line_of};
ghost use Rattle.line.specs.Numbers.{FoundAt};

use crate::offers::{Line, Offer, waiting_offers};
use layout::numbers::HiddenNumber;

// The index of the first offer of a number, none where it does not wait.
pub fn find_number(line: Line, number: HiddenNumber) -> Option<usize>
    ensures { FoundAt (line_of line) number.0 result }
{
    waiting_offers(&line)
        .iter()
        .position(|offer| offer.number.0 == number.0)
}

// Whether a number is that of one of these offers.
pub fn is_one_of(number: HiddenNumber, offers: &[Offer]) -> bool
    ensures { result ≡ is_waiting_in (offers_of offers.now) number.0 }
{
    offers.iter().any(|offer| offer.number.0 == number.0)
}

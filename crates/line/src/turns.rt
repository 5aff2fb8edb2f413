// The offers of a line that count on a drive, in their turn: a round takes the first that is not placed yet.
ghost use Rattle.std.specs.Prelude.{◌≡◌};
ghost use Rattle.model.specs.Geometry.{Fits};
ghost use Rattle.layout.specs.Geometries.{geometry_of};
ghost use Rattle.line.specs.Offers.{offers_of, line_of};
ghost use Rattle.line.specs.Turns.{first_at, TurnsFound};

use crate::changes::check_offer;
use crate::numbers::find_number;
use crate::offers::{Line, Offer, no_line, push_offer, waiting_offers};
use layout::geometry::Geometry;

// The offers of a line that count on a drive where so many bytes of blocks are lent: of each number the
// first, where 10 and 11 do not meet it.
pub fn turns_of(line: Line, g: Geometry, lent: usize) -> Line
    requires { Fits (geometry_of g) }
    ensures { TurnsFound (geometry_of g) lent (line_of line) result }
{
    let offers = waiting_offers(&line);
    let mut turns = no_line();
    for (i, offer) in offers.iter().enumerate() {
        let first = find_number(line, offer.number) == Some(i);
        let good = check_offer(g, *offer, lent).is_ok();
        if first && good {
            turns = push_offer(turns, *offer);
        }
    }
    turns
}

// The first turn after so many that are placed.
pub fn first_of(turns: &[Offer], placed: usize) -> Option<Offer>
    ensures { result ≡ first_at (offers_of turns.now) placed }
{
    turns.get(placed).copied()
}

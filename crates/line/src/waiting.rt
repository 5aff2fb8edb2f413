// What waits under a number.
ghost use Rattle.model.specs.Geometry.{Fits};
ghost use Rattle.layout.specs.Geometries.{geometry_of};
ghost use Rattle.line.specs.Offers.{line_of};
ghost use Rattle.line.specs.Waiting.{WaitsFor};

use crate::changes::check_offer;
use crate::numbers::find_number;
use crate::offers::{Line, Offer};
use layout::geometry::Geometry;
use layout::numbers::HiddenNumber;

// The first offer of a number, where it counts on a drive where so many bytes of blocks are lent.
pub fn waiting_for(line: Line, g: Geometry, lent: usize, number: HiddenNumber) -> Option<Offer>
    requires { Fits (geometry_of g) }
    ensures { WaitsFor (geometry_of g) lent (line_of line) number.0 result }
{
    let index = find_number(line, number)?;
    let offer = line.offers[index];
    match check_offer(g, offer, lent) {
        Ok(()) => Some(offer),
        Err(_) => None,
    }
}

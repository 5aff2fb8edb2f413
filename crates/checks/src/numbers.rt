// A hidden number and the length of what goes with it: refusals 10 and 11.
ghost use Rattle.std.specs.Prelude.{◌≡◌};
ghost use Rattle.laws.specs.Checks.{first_of};
ghost use Rattle.model.specs.Refusals.{hidden_checks};
ghost use Rattle.layout.specs.Geometries.{geometry_of};
ghost use Rattle.layout.specs.Refusals.{answer_number};

use layout::geometry::Geometry;
use layout::numbers::HiddenNumber;
use layout::refusals::Refusal;

// 10 or 11 of a hidden number and the length of its data or blank.
pub fn check_hidden_number(g: Geometry, number: HiddenNumber, size: usize) -> Result<(), Refusal>
    ensures { answer_number result ≡ first_of (hidden_checks (geometry_of g) number.0 size) }
{
    let hidden = g.hidden;
    let asked = number.0;
    if hidden <= asked {
        return Err(Refusal::HiddenNumber);
    }
    if size != g.block_size as usize {
        return Err(Refusal::HiddenSize);
    }
    Ok(())
}

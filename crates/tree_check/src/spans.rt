// How many entries of a level a node has, and which numbers stand below one.
ghost use Rattle.std.specs.Prelude.{◌≡◌, ◌<◌};
ghost use Rattle.model.specs.Geometry.{Fits};
ghost use Rattle.model.specs.HiddenTree.{span};
ghost use Rattle.model.specs.Invariants.{entries_in};
ghost use Rattle.model.specs.TreeCheck.{is_below};
ghost use Rattle.layout.specs.Geometries.{geometry_of};

use layout::geometry::{Geometry, fanout};
use layout::numbers::HiddenNumber;

// How many entries of a level a node has: all F, or in a leaf, whose entries are of level 0, all but the
// last.
pub fn entries_in(g: Geometry, level: u32) -> u32
    requires { Fits (geometry_of g) }
    ensures { result ≡ entries_in (geometry_of g) level }
{
    let fanout = fanout(g);
    if level != 0 {
        return fanout;
    }
    fanout - 1
}

// How many numbers stand below an entry of a level: 1, F - 1, (F - 1)F, (F - 1)F².
pub fn span_of(g: Geometry, level: u32) -> u64
    requires fits { Fits (geometry_of g) }
    requires level_lt_height { level < g.height }
    ensures { result ≡ span (geometry_of g) level }
{
    if level == 0 {
        return 1;
    }
    let fanout = fanout(g) as u64;
    (fanout - 1) * fanout.pow(level - 1)
}

// Whether a number is one of those below an entry of a level whose numbers begin with this one.
pub fn is_below(g: Geometry, level: u32, first: u64, number: HiddenNumber) -> bool
    requires fits { Fits (geometry_of g) }
    requires level_lt_height { level < g.height }
    ensures { result ≡ is_below (geometry_of g) level first number.0 }
{
    let whole = number.0 as u64;
    if whole < first {
        return false;
    }
    whole - first < span_of(g, level)
}

// Where a slot's blocks stand.
ghost use Rattle.std.specs.Prelude.{◌≡◌};
ghost use Rattle.model.specs.Geometry.{Fits};
ghost use Rattle.model.specs.Layout.{level_address, is_slot_block};
ghost use Rattle.layout.specs.Geometries.{geometry_of};
ghost use Rattle.layout.specs.Slots.{SlotLevel};

use crate::geometry::{Geometry, area_start, slot_start, slot_width};
use crate::numbers::DiskAddress;

// Address of a slot's block of a level: A + level, and A + k for level 0, hidden data.
pub fn level_address(g: Geometry, slot: u32, level: u32) -> DiskAddress
    requires { SlotLevel (geometry_of g) slot level }
    ensures { result.0 ≡ level_address (geometry_of g) slot level }
{
    let start = slot_start(g, slot);
    if level == 0 {
        return DiskAddress(start.0 + g.height);
    }
    DiskAddress(start.0 + level)
}

// Whether an entry of the map is block A of one of the slots.
pub fn is_slot_start(g: Geometry, entry: DiskAddress) -> bool
    requires { Fits (geometry_of g) }
    ensures { result ≡ is_slot_block (geometry_of g) 0 entry.0 }
{
    let start = area_start(g);
    let first = start.0;
    let at = entry.0;
    let width = slot_width(g);
    if at < first {
        return false;
    }
    let place = at - first;
    if g.slots * width <= place {
        return false;
    }
    place % width == 0
}

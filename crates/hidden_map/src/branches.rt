// Which entry a hidden number takes at each level, and which addresses are well formed there. An entry of
// level j stands in a node of level j + 1 and leads to a block of level j: an entry of level 0 stands in a
// leaf.
ghost use Rattle.std.specs.Prelude.{◌≡◌, ◌≤◌};
ghost use Rattle.model.specs.Geometry.{Fits};
ghost use Rattle.model.specs.Geometry as model;
ghost use Rattle.model.specs.Layout.{is_well_formed};
ghost use Rattle.model.specs.HiddenTree.{branch_at};
ghost use Rattle.layout.specs.Geometries.{geometry_of};
ghost use Rattle.hidden_map.specs.Trees.{AreaOf, SizedAt};

use layout::geometry::{Geometry, area_start, slot_width};
use layout::numbers::{DiskAddress, HiddenNumber};

// The index of a number's entry of a level in its node: its place in the leaf, above it a digit of the leaf
// in base F.
pub fn branch_at(size: u32, number: HiddenNumber, level: u32) -> usize
    requires { SizedAt size level }
    ensures { (g : model.Geometry) → size ≡ g.block_size → result ≡ branch_at g number.0 level }
{
    let fanout = size as usize / 4;
    let whole = number.0 as usize;
    if level == 0 {
        return whole % (fanout - 1);
    }
    let leaf = whole / (fanout - 1);
    if level == 1 {
        return leaf % fanout;
    }
    if level == 2 {
        return leaf / fanout % fanout;
    }
    leaf / (fanout * fanout) % fanout
}

// Where a drive's slots stand: the height of its tree, which says how many blocks a slot has, the first of
// their blocks, and how many blocks the drive has.
#[derive(Clone, Copy)]
pub struct Area {
    pub height: u32,
    pub start: DiskAddress,
    pub count: u32,
}

// A drive's slots, by its geometry.
pub fn area_of(g: Geometry) -> Area
    requires { Fits (geometry_of g) }
    ensures { AreaOf (geometry_of g) result }
{
    let start = area_start(g);
    let count = start.0 + g.slots * slot_width(g);
    Area {
        height: g.height,
        start,
        count,
    }
}

// Whether an address is that of a block of a level in some slot: A + level, and A + k for hidden data.
pub fn is_well_formed(area: Area, level: u32, address: DiskAddress) -> bool
    requires { area.height ≤ 4 }
    ensures { (g : model.Geometry) → AreaOf g area → result ≡ is_well_formed g level address.0 }
{
    let first = area.start.0;
    let at = address.0;
    if at < first {
        return false;
    }
    if area.count <= at {
        return false;
    }
    let place = (at - first) % (area.height + 1);
    if level == 0 {
        return place == area.height;
    }
    place == level
}

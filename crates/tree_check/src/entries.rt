// The three tests of an entry that is met and is not 0; one that passes them is handed back with the nodes of
// the walk of its slot's owner.
ghost use Rattle.std.specs.Prelude.{◌≡◌, ◌<◌};
ghost use Rattle.model.specs.Geometry.{Fits};
ghost use Rattle.model.specs.Layout.{Drive, is_well_formed};
ghost use Rattle.model.specs.TreeCheck.{met_entry};
ghost use Rattle.layout.specs.Geometries.{geometry_of};
ghost use Rattle.tree_check.specs.Entries.{TestedAs, Ownable};

use crate::spans::is_below;
use hidden_map::branches::{area_of, is_well_formed};
use hidden_map::nodes::Nodes;
use hidden_map::walks::walk;
use layout::geometry::{Geometry, slot_of};
use layout::numbers::DiskAddress;
use layout::refusals::Refusal;
use owners::{ends_in, owner_of};

// Whether an address is that of a block of a level in some slot.
fn is_formed(g: Geometry, level: u32, address: DiskAddress) -> bool
    requires { Fits (geometry_of g) }
    ensures { result ≡ is_well_formed (geometry_of g) level address.0 }
{
    is_well_formed(area_of(g), level, address)
}

// 15 of an entry that 13 and 14 do not meet: the owner of the slot that it leads to is not below it, or the
// owner's walk does not end at the slot's last block.
fn test_owner(
    disk: &[u8],
    g: Geometry,
    level: u32,
    first: u64,
    entry: DiskAddress,
) -> Result<Nodes, Refusal>
    requires { Ownable (geometry_of g) disk.now level first entry.0 }
    ensures { TestedAs (geometry_of g) disk.now (met_entry level first entry.0) result }
{
    let slot = slot_of(g, entry);
    let owner = owner_of(disk, g, slot);
    if !is_below(g, level, first, owner) {
        return Err(Refusal::WrongOwner);
    }
    let trail = walk(disk, g, owner);
    if !ends_in(g, trail.end, slot) {
        return Err(Refusal::WrongOwner);
    }
    Ok(trail.nodes)
}

// 13, 14 or 15 of an entry of a level whose numbers begin with this one, the first that holds. The first
// number may lie past every hidden number, and past 32 bits. A function of its own when compiled too: the walk
// that it makes is then in none of the frames of `check_node`, up to eleven a level.
#[inline(never)]
pub fn test_entry(
    disk: &[u8],
    g: Geometry,
    level: u32,
    first: u64,
    entry: DiskAddress,
) -> Result<Nodes, Refusal>
    requires drive { Drive (geometry_of g) disk.now }
    requires level_lt_height { level < g.height }
    ensures { TestedAs (geometry_of g) disk.now (met_entry level first entry.0) result }
{
    if !is_formed(g, level, entry) {
        return Err(Refusal::IllFormed);
    }
    if g.hidden as u64 <= first {
        return Err(Refusal::PastHidden);
    }
    test_owner(disk, g, level, first, entry)
}

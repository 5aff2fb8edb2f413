// Whose slot it is, the walk of its owner, and what that walk says of the slot (document 01, "A round",
// "Hidden").
#![tactic(auto)]

ghost use Rattle.std.specs.Prelude.{◌≡◌, ◌<◌};
ghost use Rattle.model.specs.Geometry.{Fits};
ghost use Rattle.model.specs.Layout.{Drive, level_address};
ghost use Rattle.model.specs.HiddenTree.{owner_of, is_found_at};
ghost use Rattle.layout.specs.Geometries.{geometry_of};
ghost use Rattle.hidden_map.specs.Ends.{end_of};
ghost use Rattle.owners.specs.Owners.{OwnerWalked, is_live_for, is_damaged_for};

use hidden_map::ends::{is_at, is_damaged};
use hidden_map::walks::{Reached, Trail, walk};
use layout::blocks::block_at;
use layout::entries::entry_at;
use layout::geometry::{Geometry, fanout};
use layout::levels::level_address;
use layout::numbers::HiddenNumber;

// The hidden number that a slot belongs to, with the trail of its walk.
#[derive(Clone, Copy)]
pub struct Owner {
    pub number: HiddenNumber,
    pub trail: Trail,
}

// The reverse number of a slot, the last entry of its leaf.
pub fn owner_of(disk: &[u8], g: Geometry, slot: u32) -> HiddenNumber
    requires drive { Drive (geometry_of g) disk.now }
    requires slot_lt_slots { slot < g.slots }
    ensures { result.0 ≡ owner_of (geometry_of g) disk.now slot }
{
    let last = fanout(g) as usize - 1;
    let leaf = block_at(disk, g, level_address(g, slot, 1));
    HiddenNumber(entry_at(leaf, last))
}

// The owner by a slot's reverse number, and its walk: nobody, where that is no hidden number.
pub fn walk_owner(disk: &[u8], g: Geometry, number: HiddenNumber) -> Option<Owner>
    requires { Drive (geometry_of g) disk.now }
    ensures { OwnerWalked (geometry_of g) disk.now number.0 result }
{
    if g.hidden <= number.0 {
        return None;
    }
    Some(Owner {
        number,
        trail: walk(disk, g, number),
    })
}

// Whether a walk ended at the last block of a slot, its hidden data.
pub fn ends_in(g: Geometry, end: Reached, slot: u32) -> bool
    requires fits { Fits (geometry_of g) }
    requires slot_lt_slots { slot < g.slots }
    ensures { result ≡ is_found_at (level_address (geometry_of g) slot 0) (end_of end) }
{
    is_at(end, level_address(g, slot, 0))
}

// Whether a slot holds its owner's current block: the owner's walk ended in it.
pub fn is_live(g: Geometry, slot: u32, owner: Option<Owner>) -> bool
    requires fits { Fits (geometry_of g) }
    requires slot_lt_slots { slot < g.slots }
    ensures { result ≡ is_live_for (geometry_of g) slot owner }
{
    owner.is_some_and(|owner| ends_in(g, owner.trail.end, slot))
}

// Whether the walk of a slot's owner is damaged.
pub fn is_owner_damaged(owner: Option<Owner>) -> bool
    ensures { result ≡ is_damaged_for owner }
{
    owner.is_some_and(|owner| is_damaged(owner.trail.end))
}

// How long an offer waits (document 02, K12), counted in rounds. The figure tells of the hidden volume: it is
// the owner's, as outcomes are.
ghost use Rattle.std.specs.Prelude.{◌≡◌, ◌<◌};
ghost use Rattle.model.specs.Layout.{Drive, head_in};
ghost use Rattle.model.specs.HiddenHalf.{is_live};
ghost use Rattle.model.specs.Waits.{wait_rounds};
ghost use Rattle.layout.specs.Geometries.{geometry_of};
ghost use Rattle.checks.specs.Counts.{found_round};
ghost use Rattle.questions.specs.Waits.{wait_of, wait_in};

use checks::counts::first_round;
use layout::drives::open_drive;
use layout::geometry::{Geometry, head_in};
use layout::refusals::Refusal;
use owners::{is_live, owner_of, walk_owner};

// Whether a slot holds the current block of its owner.
fn is_slot_live(disk: &[u8], g: Geometry, slot: u32) -> bool
    requires drive { Drive (geometry_of g) disk.now }
    requires slot_lt_slots { slot < g.slots }
    ensures { result ≡ is_live (geometry_of g) disk.now slot }
{
    let number = owner_of(disk, g, slot);
    is_live(g, slot, walk_owner(disk, g, number))
}

// The round, from the head on, that comes to the first slot that is not live; none where every slot is live,
// which no drive has, as live slots have different owners.
fn rounds_to_place(disk: &[u8], g: Geometry) -> Option<u32>
    requires drive { Drive (geometry_of g) disk.now }
    requires disk_bound { head_in disk.now < g.slots }
    ensures { result ≡ found_round (wait_rounds (geometry_of g) disk.now) }
{
    first_round(g, head_in(disk), |slot| is_slot_live(disk, g, slot))
}

// In which round from here on the first offer that waits is placed, on a drive that passes the check of its
// tree: from 1 to H + 1. 1 to 3 where the disk is no drive.
pub fn wait_rounds(disk: &[u8]) -> Result<u32, Refusal>
    ensures { wait_of result ≡ wait_in disk.now }
{
    let g = open_drive(disk)?;
    Ok(rounds_to_place(disk, g).unwrap_or(0))
}

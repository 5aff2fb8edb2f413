// What a round is to do with its slot, settled before the slot is stored: one walk for the slot's owner, and
// one for the waiting number where that is another.
ghost use Rattle.std.specs.Prelude.{◌≡◌, ◌<◌};
ghost use Rattle.model.specs.Layout.{Drive};
ghost use Rattle.layout.specs.Geometries.{geometry_of};
ghost use Rattle.hidden_map.specs.Walks.{Walked};
ghost use Rattle.owners.specs.Owners.{OwnWalked};
ghost use Rattle.plans.specs.Plans.{kept_plan, placed_plan, FirstPlanned, HalfPlanned, turn_of};
ghost use Rattle.plans.specs.Plans.{Planned};

use crate::hidden_plans::{Data, HiddenPlan};
use crate::states::Turn;
use hidden_map::ends::is_damaged;
use hidden_map::walks::{Trail, walk};
use layout::bitmap::is_allocated;
use layout::geometry::Geometry;
use layout::numbers::HiddenNumber;
use line::offers::Offer;
use owners::{Owner, is_live, is_owner_damaged, owner_of, walk_owner};
use table::{HiddenChoice, PublicChoice, row_at};

// The choice for the public block, the plan of the hidden half, and what it does with the first one waiting.
#[derive(Clone, Copy)]
pub struct Plans {
    pub choice: PublicChoice,
    pub plan: HiddenPlan,
    pub turn: Turn,
}

// ---- the hidden half ----

// The walk for a number: that of the slot's owner, where the owner is this number, else one of its own.
fn next_trail(disk: &[u8], g: Geometry, owner: Option<Owner>, number: HiddenNumber) -> Trail
    requires drive { Drive (geometry_of g) disk.now }
    requires own_walked { OwnWalked (geometry_of g) disk.now owner }
    ensures { Walked (geometry_of g) disk.now number.0 result }
{
    match owner {
        Some(owner) if owner.number == number => owner.trail,
        _ => walk(disk, g, number),
    }
}

// The plan for a slot that is kept: its owner's path with the slot's own data. Nobody's slot is not kept.
fn plan_kept(owner: Option<Owner>) -> HiddenPlan
    ensures { result ≡ kept_plan owner }
{
    match owner {
        None => HiddenPlan::Fill,
        Some(owner) => HiddenPlan::Path(owner.number, owner.trail.nodes, Data::Own),
    }
}

// The plan for an offer that is placed: its number's path with its block, or the slot written back where the
// number's walk is damaged.
fn plan_placed(offer: Offer, trail: Trail) -> HiddenPlan
    ensures { result ≡ placed_plan offer trail }
{
    if is_damaged(trail.end) {
        return HiddenPlan::Back;
    }
    HiddenPlan::Path(offer.number, trail.nodes, Data::Offered(offer.place))
}

// The plan for the first one waiting; where nobody waits, random bytes.
fn plan_first(disk: &[u8], g: Geometry, owner: Option<Owner>, first: Option<Offer>) -> HiddenPlan
    requires drive { Drive (geometry_of g) disk.now }
    requires own_walked { OwnWalked (geometry_of g) disk.now owner }
    ensures { FirstPlanned (geometry_of g) disk.now first result }
{
    match first {
        None => HiddenPlan::Fill,
        Some(offer) => plan_placed(offer, next_trail(disk, g, owner, offer.number)),
    }
}

// The plan for a slot's hidden half by the table's choice, or the slot written back where its owner's walk is
// damaged.
fn plan_half(
    disk: &[u8],
    g: Geometry,
    choice: HiddenChoice,
    owner: Option<Owner>,
    first: Option<Offer>,
) -> HiddenPlan
    requires drive { Drive (geometry_of g) disk.now }
    requires own_walked { OwnWalked (geometry_of g) disk.now owner }
    ensures { HalfPlanned (geometry_of g) disk.now choice owner first result }
{
    if is_owner_damaged(owner) {
        return HiddenPlan::Back;
    }
    match choice {
        HiddenChoice::Keep => plan_kept(owner),
        HiddenChoice::Place => plan_first(disk, g, owner, first),
        HiddenChoice::Fill => HiddenPlan::Fill,
    }
}

// What a plan does with the first one waiting.
fn turn_of(plan: HiddenPlan) -> Turn
    ensures { result ≡ turn_of plan }
{
    match plan {
        HiddenPlan::Back => Turn::Damaged,
        HiddenPlan::Path(_, _, Data::Offered(_)) => Turn::Placed,
        HiddenPlan::Path(_, _, Data::Own) | HiddenPlan::Fill => Turn::Still,
    }
}

// ---- the round ----

// What a round at a slot is to do, by the table's row.
pub fn plan_round(disk: &[u8], g: Geometry, slot: u32, first: Option<Offer>) -> Plans
    requires drive { Drive (geometry_of g) disk.now }
    requires slot_lt_slots { slot < g.slots }
    ensures { Planned (geometry_of g) disk.now slot first result }
{
    let own = owner_of(disk, g, slot);
    let owner = walk_owner(disk, g, own);
    let row = row_at(
        first.is_some(),
        is_allocated(disk, g, slot),
        is_live(g, slot, owner),
    );
    let plan = plan_half(disk, g, row.hidden, owner, first);
    Plans {
        choice: row.public,
        plan,
        turn: turn_of(plan),
    }
}

// All stores of a round, by their places: the slot's, the root's, map and bits in the last round, the header.
ghost use Rattle.std.specs.Prelude.{◌≡◌};
ghost use Rattle.model.specs.Geometry.{Fits};
ghost use Rattle.layout.specs.Geometries.{geometry_of};
ghost use Rattle.plans.specs.HiddenPlans.{offered_by};
ghost use Rattle.stores.specs.Described.{store_at, Describes};
ghost use Rattle.round_stores.specs.Planned.{planned_trace, planned_count, StoreReady};

use crate::endings::{ending_count, ending_store};
use layout::geometry::Geometry;
use plans::hidden_plans::HiddenPlan;
use plans::public_plans::PublicPlan;
use slot_stores::slots::slot_store;
use stores::descriptors::Descriptor;

// A round as it is planned: its slot, and what both halves are to store.
#[derive(Clone, Copy)]
pub struct PlannedRound {
    pub slot: u32,
    pub public: PublicPlan,
    pub hidden: HiddenPlan,
}

// The store at a place of a round.
pub fn round_store(g: Geometry, round: PlannedRound, place: u32) -> Descriptor
    requires { StoreReady (geometry_of g) round place }
    ensures { Describes (geometry_of g) (offered_by round.hidden) place (λ disk content blocks random.
        store_at place (planned_trace round (geometry_of g) disk content blocks random)) result }
{
    let slot = round.slot;
    let public = round.public;
    let hidden = round.hidden;
    let in_slot = g.height + 2;
    if place < in_slot {
        return slot_store(g, slot, public, hidden, place);
    }
    ending_store(g, slot, public, place - in_slot)
}

// How many stores a round has.
pub fn store_count(g: Geometry, round: PlannedRound) -> u32
    requires { Fits (geometry_of g) }
    ensures { result ≡ planned_count (geometry_of g) round }
{
    let public = round.public;
    g.height + 2 + ending_count(public)
}

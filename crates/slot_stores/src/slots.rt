// All stores of a slot and of the root, by their places: A, A + 1 to A + k, the root.
ghost use Rattle.std.specs.Prelude.{◌-◌, ◌+◌};
ghost use Rattle.layout.specs.Geometries.{geometry_of};
ghost use Rattle.plans.specs.HiddenPlans.{hidden_trace, offered_by, PathPlaced};
ghost use Rattle.stores.specs.Described.{store_at, Describes};
ghost use Rattle.slot_stores.specs.Slots.{SlotPlace, slot_trace};

use crate::blocks::{kept_store, public_store, random_store};
use crate::paths::path_store;
use layout::geometry::Geometry;
use plans::hidden_plans::HiddenPlan;
use plans::public_plans::PublicPlan;
use stores::descriptors::Descriptor;

// A slot's hidden block at a place, or after its last one the root, as it is planned.
fn hidden_store(g: Geometry, slot: u32, plan: HiddenPlan, place: u32) -> Descriptor
    requires slot_place { SlotPlace (geometry_of g) slot 1 ((geometry_of g).height + 2) place }
    requires path_placed { PathPlaced (geometry_of g) plan }
    ensures { Describes (geometry_of g) (offered_by plan) place (λ disk content blocks random.
        store_at (place - 1) (hidden_trace plan (geometry_of g) disk slot blocks random)) result }
{
    match plan {
        HiddenPlan::Back => kept_store(g, slot, place),
        HiddenPlan::Path(number, nodes, data) => path_store(g, slot, number, nodes, data, place),
        HiddenPlan::Fill => random_store(g, slot, place),
    }
}

// The store at a place of a slot, or after its last block the root's.
pub fn slot_store(
    g: Geometry,
    slot: u32,
    public: PublicPlan,
    hidden: HiddenPlan,
    place: u32,
) -> Descriptor
    requires slot_place { SlotPlace (geometry_of g) slot 0 ((geometry_of g).height + 2) place }
    requires path_placed { PathPlaced (geometry_of g) hidden }
    ensures { Describes (geometry_of g) (offered_by hidden) place (λ disk content blocks random.
        store_at place (slot_trace public hidden (geometry_of g) disk slot content blocks random)) result }
{
    if place == 0 {
        return public_store(g, slot, public);
    }
    hidden_store(g, slot, hidden, place)
}

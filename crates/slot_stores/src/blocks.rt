// Descriptors of blocks that are stored as they are taken: the public block, blocks written back, random
// blocks.
ghost use Rattle.std.specs.Prelude.{◌≡◌, ◌-◌, ◌+◌, ◌<◌};
ghost use Rattle.std.proofs.Math.Option.{none};
ghost use Rattle.model.specs.Geometry.{Fits};
ghost use Rattle.model.specs.Layout.{slot_start};
ghost use Rattle.model.specs.Paths.{written_back, dummy_stores};
ghost use Rattle.model.specs.Rounds.{public_store};
ghost use Rattle.layout.specs.Geometries.{geometry_of};
ghost use Rattle.plans.specs.PublicPlans.{choice_of};
ghost use Rattle.stores.specs.Described.{store_at, Describes};
ghost use Rattle.slot_stores.specs.Slots.{SlotPlace};

use layout::geometry::{Geometry, root_address, slot_start};
use layout::numbers::DiskAddress;
use plans::public_plans::PublicPlan;
use stores::changes::Change;
use stores::descriptors::{Descriptor, Source, own, plain};

// A slot's public block: as it is, or the call's data.
pub fn public_store(g: Geometry, slot: u32, public: PublicPlan) -> Descriptor
    requires fits { Fits (geometry_of g) }
    requires slot_lt_slots { slot < g.slots }
    ensures { Describes (geometry_of g) none 0 (λ disk content blocks random.
        public_store (choice_of public) (geometry_of g) disk slot content) result }
{
    let address = slot_start(g, slot);
    match public {
        PublicPlan::Keep => own(address, Change::Nothing, Change::Nothing),
        PublicPlan::Write(_, _) => plain(address, Source::Content),
    }
}

// Address of a slot's block at a place.
fn block_address(g: Geometry, slot: u32, place: u32) -> DiskAddress
    requires { SlotPlace (geometry_of g) slot 0 ((geometry_of g).height + 1) place }
    ensures { result.0 ≡ slot_start (geometry_of g) slot + place }
{
    let start = slot_start(g, slot);
    DiskAddress(start.0 + place)
}

// A slot's block at a place, or after its last one the root, as it is.
pub fn kept_store(g: Geometry, slot: u32, place: u32) -> Descriptor
    requires { SlotPlace (geometry_of g) slot 1 ((geometry_of g).height + 2) place }
    ensures { Describes (geometry_of g) none place (λ disk content blocks random.
        store_at (place - 1) (written_back (geometry_of g) disk slot)) result }
{
    if g.height < place {
        let root = root_address(g);
        return own(root, Change::Nothing, Change::Nothing);
    }
    let address = block_address(g, slot, place);
    own(address, Change::Nothing, Change::Nothing)
}

// A slot's block at a place of random bytes, or after its last one the root as it is.
pub fn random_store(g: Geometry, slot: u32, place: u32) -> Descriptor
    requires { SlotPlace (geometry_of g) slot 1 ((geometry_of g).height + 2) place }
    ensures { Describes (geometry_of g) none place (λ disk content blocks random.
        store_at (place - 1) (dummy_stores (geometry_of g) disk slot random)) result }
{
    if g.height < place {
        return kept_store(g, slot, place);
    }
    let address = block_address(g, slot, place);
    let index = place - 1;
    plain(address, Source::Random(index))
}

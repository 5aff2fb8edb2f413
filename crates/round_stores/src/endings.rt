// Descriptors of what a round stores after its slot and the root: map and bits where it takes the call's
// data, and the header. Each is a block of the disk stored where it stands, whatever its place in the round.
ghost use Rattle.std.specs.Prelude.{◌≡◌, true, false, [], ◌∷◌, ◌++◌, ℕ, ◌+◌, ◌<◌};
ghost use Rattle.std.proofs.Math.Option.{none};
ghost use Rattle.laws.specs.Bits.{set_bit};
ghost use Rattle.model.specs.Geometry.{Fits};
ghost use Rattle.model.specs.Layout.{bit_address, bit_place, bitmap_with};
ghost use Rattle.model.specs.Stores.{store};
ghost use Rattle.model.specs.Rounds.{map_store, bit_store, header_store};
ghost use Rattle.layout.specs.Geometries.{geometry_of};
ghost use Rattle.layout.specs.Slots.{TwoSlots};
ghost use Rattle.stores.specs.Described.{store_at, Describes};
ghost use Rattle.plans.specs.PublicPlans.{bit_trace, BitsPlaced, PublicPlaced};
ghost use Rattle.slot_stores.specs.Slots.{SlotPlace};
ghost use Rattle.round_stores.specs.Endings.{MapReady, bit_count, ending_trace, ending_count};

use layout::bitmap::{bit_address, bit_place};
use layout::geometry::{Geometry, fanout, slot_start};
use layout::numbers::{DiskAddress, PublicNumber};
use plans::public_plans::{Bits, PublicPlan};
use stores::changes::Change;
use stores::descriptors::{Descriptor, own};

// ---- one store each ----

// The map block with a number's entry at a slot's public block.
fn map_store(g: Geometry, number: PublicNumber, slot: u32) -> Descriptor
    requires { MapReady (geometry_of g) number.0 slot }
    ensures { (place : ℕ) → Describes (geometry_of g) none place (λ disk content blocks random.
        map_store (geometry_of g) disk number.0 slot) result }
{
    let fanout = fanout(g);
    let address = DiskAddress(1 + number.0 / fanout);
    let index = (number.0 % fanout) as usize;
    let start = slot_start(g, slot);
    own(address, Change::Entry(index, start.0), Change::Nothing)
}

// A slot's bitmap block with its bit 1 or 0 as asked.
fn bit_store(g: Geometry, slot: u32, is_set: bool) -> Descriptor
    requires fits { Fits (geometry_of g) }
    requires slot_lt_slots { slot < g.slots }
    ensures { (place : ℕ) → Describes (geometry_of g) none place (λ disk content blocks random.
        bit_store (geometry_of g) disk slot is_set) result }
{
    let address = bit_address(g, slot);
    let bit = bit_place(g, slot);
    own(address, Change::Bit(bit, is_set), Change::Nothing)
}

// The one bitmap block of two slots with the new slot's bit set and the old slot's cleared.
fn both_bits_store(g: Geometry, slot: u32, old: u32) -> Descriptor
    requires { TwoSlots (geometry_of g) slot old }
    ensures { (place : ℕ) → Describes (geometry_of g) none place (λ disk content blocks random.
        store (bit_address (geometry_of g) slot) (set_bit (bit_place (geometry_of g) old) false
        (bitmap_with (geometry_of g) disk slot true))) result }
{
    let address = bit_address(g, slot);
    let new_bit = bit_place(g, slot);
    let old_bit = bit_place(g, old);
    own(
        address,
        Change::Bit(new_bit, true),
        Change::Bit(old_bit, false),
    )
}

// The header with the head at the slot after this one, in a circle; its other bytes stay.
fn header_store(g: Geometry, slot: u32) -> Descriptor
    requires fits { Fits (geometry_of g) }
    requires slot_lt_slots { slot < g.slots }
    ensures { (place : ℕ) → Describes (geometry_of g) none place (λ disk content blocks random.
        header_store (geometry_of g) disk slot) result }
{
    let slots = g.slots;
    let head = (slot + 1) % slots;
    own(DiskAddress(0), Change::Entry(5, head), Change::Nothing)
}

// ---- by index ----

// The bitmap's stores and then the header, by index.
fn bits_ending_store(g: Geometry, slot: u32, bits: Bits, index: u32) -> Descriptor
    requires slot_place { SlotPlace (geometry_of g) slot 0 (bit_count bits + 1) index }
    requires bits_placed { BitsPlaced (geometry_of g) slot bits }
    ensures { (place : ℕ) → Describes (geometry_of g) none place (λ disk content blocks random.
        store_at index (bit_trace bits (geometry_of g) disk slot ++
        (header_store (geometry_of g) disk slot ∷ []))) result }
{
    match bits {
        Bits::New => match index {
            0 => bit_store(g, slot, true),
            _ => header_store(g, slot),
        },
        Bits::Shared(old) => match index {
            0 => both_bits_store(g, slot, old),
            _ => header_store(g, slot),
        },
        Bits::Apart(old) => match index {
            0 => bit_store(g, slot, true),
            1 => bit_store(g, old, false),
            _ => header_store(g, slot),
        },
    }
}

// What a round stores after its slot and the root, by index.
pub fn ending_store(g: Geometry, slot: u32, public: PublicPlan, index: u32) -> Descriptor
    requires slot_place { SlotPlace (geometry_of g) slot 0 (ending_count public) index }
    requires public_placed { PublicPlaced (geometry_of g) slot public }
    ensures { (place : ℕ) → Describes (geometry_of g) none place (λ disk content blocks random.
        store_at index (ending_trace public (geometry_of g) disk slot)) result }
{
    match public {
        PublicPlan::Keep => header_store(g, slot),
        PublicPlan::Write(number, bits) => {
            if index == 0 {
                return map_store(g, number, slot);
            }
            bits_ending_store(g, slot, bits, index - 1)
        }
    }
}

// How many stores those are.
pub fn ending_count(public: PublicPlan) -> u32
    ensures { result ≡ ending_count public }
{
    match public {
        PublicPlan::Keep => 1,
        PublicPlan::Write(_, bits) => match bits {
            Bits::New => 3,
            Bits::Shared(_) => 3,
            Bits::Apart(_) => 4,
        },
    }
}

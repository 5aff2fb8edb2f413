// What the public half of a round is to store.
ghost use Rattle.layout.specs.Geometries.{geometry_of};
ghost use Rattle.plans.specs.PublicPlans.{BitsReady, BitsPlanned, PublicReady, PublicPlanned};

use layout::bitmap::is_shared;
use layout::geometry::{Geometry, slot_of};
use layout::numbers::{DiskAddress, PublicNumber};
use layout::public_map::map_entry;
use table::PublicChoice;

// The bits that change when a public number goes to a slot: the slot's alone, for a number that had no place;
// else also that of the slot that it leaves, in the same bitmap block or in another.
#[derive(Clone, Copy)]
pub enum Bits {
    New,
    Shared(u32),
    Apart(u32),
}

// The slot's public block is kept; or it takes the call's data, and then a number's entry and bits follow.
#[derive(Clone, Copy)]
pub enum PublicPlan {
    Keep,
    Write(PublicNumber, Bits),
}

// The bits that change when a number with this entry goes to a slot.
fn plan_bits(g: Geometry, slot: u32, entry: DiskAddress) -> Bits
    requires { BitsReady (geometry_of g) slot entry.0 }
    ensures { BitsPlanned (geometry_of g) slot entry.0 result }
{
    if entry.0 == 0 {
        return Bits::New;
    }
    let old = slot_of(g, entry);
    if is_shared(g, slot, old) {
        return Bits::Shared(old);
    }
    Bits::Apart(old)
}

// The plan of a public half by the table's choice. The number's old entry is read before any store.
pub fn plan_public(
    disk: &[u8],
    g: Geometry,
    number: PublicNumber,
    slot: u32,
    choice: PublicChoice,
) -> PublicPlan
    requires { PublicReady (geometry_of g) disk.now number.0 slot }
    ensures { PublicPlanned (geometry_of g) disk.now number.0 slot choice result }
{
    match choice {
        PublicChoice::Keep => PublicPlan::Keep,
        PublicChoice::Write => {
            let entry = map_entry(disk, g, number);
            PublicPlan::Write(number, plan_bits(g, slot, entry))
        }
    }
}

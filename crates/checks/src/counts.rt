// The rounds of a write up to the first free slot, their stores and random bytes: refusals 7 to 9.
ghost use Rattle.std.specs.Prelude.{◌≡◌, ℕ, ◌≤◌, ◌<◌, Bool};
ghost use Rattle.laws.specs.Checks.{first_of};
ghost use Rattle.model.specs.Layout.{Drive, head_in, is_one_block};
ghost use Rattle.model.specs.Refusals.{rounds_to, round_count, store_count, write_store_count, round_checks};
ghost use Rattle.layout.specs.Geometries.{geometry_of};
ghost use Rattle.layout.specs.Refusals.{answer_number};
ghost use Rattle.checks.specs.Counts.{Tells, found_round, Moving, Writable, Counted};

use layout::bitmap::{is_allocated, is_shared};
use layout::geometry::{Geometry, head_in, slot_of};
use layout::numbers::{DiskAddress, PublicNumber};
use layout::public_map::map_entry;
use layout::refusals::Refusal;

// The round, from a slot on, that comes to the first slot that is not taken; none where all are.
pub fn first_round<F: Fn(u32) -> bool>(g: Geometry, head: u32, is_taken: F) -> Option<u32>
    requires head_bound { head < g.slots }
    requires asks { (slot : ℕ) → slot < g.slots → F.pre is_taken slot }
    ensures { (taken : ℕ → Bool) → Tells g.slots (F.post is_taken) taken
        → result ≡ found_round (rounds_to g.slots taken (geometry_of g) head) }
{
    let mut slot = head;
    for done in 0..g.slots {
        if !is_taken(slot) {
            return Some(done + 1);
        }
        slot = (slot + 1) % g.slots;
    }
    None
}

// The rounds that a write takes, from the head on up to the first free slot; none where no slot is free.
pub fn round_count(disk: &[u8], g: Geometry) -> Option<u32>
    requires drive { Drive (geometry_of g) disk.now }
    requires disk_bound { head_in disk.now < g.slots }
    ensures { result ≡ found_round (round_count (geometry_of g) disk.now) }
{
    first_round(g, head_in(disk), |slot| is_allocated(disk, g, slot))
}

// Whether a number with this entry that goes to a slot changes one bitmap block.
fn is_one_block(g: Geometry, entry: DiskAddress, slot: u32) -> bool
    requires { Moving (geometry_of g) entry.0 slot }
    ensures { result ≡ is_one_block (geometry_of g) entry.0 slot }
{
    if entry.0 == 0 {
        return true;
    }
    is_shared(g, slot, slot_of(g, entry))
}

// The stores of so many rounds, the last in this slot, for a number with this entry.
fn store_count(g: Geometry, rounds: u32, entry: DiskAddress, slot: u32) -> u32
    requires moving { Moving (geometry_of g) entry.0 slot }
    requires rounds_le_slots { rounds ≤ g.slots }
    ensures { result ≡ store_count (geometry_of g) rounds entry.0 slot }
{
    let kept = rounds * (g.height + 3);
    if is_one_block(g, entry, slot) {
        kept + 2
    } else {
        kept + 3
    }
}

// The stores of a write that takes so many rounds now.
pub fn write_store_count(disk: &[u8], g: Geometry, number: PublicNumber, rounds: u32) -> u32
    requires { Counted (geometry_of g) disk.now number.0 rounds }
    ensures { result ≡ write_store_count (geometry_of g) disk.now number.0 }
{
    let slots = g.slots;
    let entry = map_entry(disk, g, number);
    let last = (head_in(disk) + rounds - 1) % slots;
    store_count(g, rounds, entry, last)
}

// 7 to 9 of a write, for lent random bytes and a list of these lengths.
pub fn check_rounds(
    disk: &[u8],
    g: Geometry,
    number: PublicNumber,
    random: usize,
    room: usize,
) -> Result<(), Refusal>
    requires { Writable (geometry_of g) disk.now number.0 }
    ensures { answer_number result ≡ first_of (round_checks (geometry_of g) disk.now number.0 random room) }
{
    let rounds = round_count(disk, g).ok_or(Refusal::NoFreeSlot)?;
    if (random as u64) < (rounds as u64) * (g.height as u64) * (g.block_size as u64) {
        return Err(Refusal::RandomBytes);
    }
    if room < write_store_count(disk, g, number, rounds) as usize {
        return Err(Refusal::ListRoom);
    }
    Ok(())
}

// The bitmap: one bit for each block of the data area, low bit first.
ghost use Rattle.std.specs.Prelude.{◌≡◌, true, ◌/◌, ◌<◌, length};
ghost use Rattle.laws.specs.Bits.{bit_of, with_bit, bit_at, set_bit};
ghost use Rattle.model.specs.Geometry.{Fits, block_width};
ghost use Rattle.model.specs.Blocks.{set_block};
ghost use Rattle.model.specs.Layout.{Drive, area_place, bit_address, bit_place, is_shared, is_allocated};
ghost use Rattle.model.specs.Layout.{bitmap_with};
ghost use Rattle.layout.specs.Geometries.{geometry_of};
ghost use Rattle.layout.specs.Slots.{TwoSlots};

use crate::blocks::block_at;
use crate::geometry::{Geometry, map_blocks, slot_width};
use crate::numbers::DiskAddress;

// ---- bits of a byte ----

// Whether a byte's bit is 1.
fn bit_of(byte: u8, place: u16) -> bool
    requires { place < 8 }
    ensures { result ≡ bit_of place byte }
{
    (byte >> place) % 2 == 1
}

// The byte with that bit 1 or 0 as asked.
fn with_bit(byte: u8, place: u16, is_set: bool) -> u8
    requires { place < 8 }
    ensures { result ≡ with_bit place is_set byte }
{
    let weight = 1u8 << place;
    if bit_of(byte, place) {
        if is_set { byte } else { byte - weight }
    } else {
        if is_set { byte + weight } else { byte }
    }
}

// ---- bits of a block ----

// Whether the bit at a place of a block is 1.
pub fn bit_at(block: &[u8], place: u16) -> bool
    requires { place / 8 < length block.now }
    ensures { result ≡ bit_at place block.now }
{
    bit_of(block[(place / 8) as usize], place % 8)
}

// Sets the bit at a place of a block to 1 or 0 as asked; the other bits stay.
pub fn set_bit(block: &mut [u8], place: u16, is_set: bool)
    requires { place / 8 < length block.old }
    ensures { block.new ≡ set_bit place is_set block.old }
{
    let at = (place / 8) as usize;
    block[at] = with_bit(block[at], place % 8, is_set);
}

// ---- bits of slots ----

// The bit of a slot's public block, counted over the whole data area.
fn area_place(g: Geometry, slot: u32) -> usize
    requires fits { Fits (geometry_of g) }
    requires slot_lt_slots { slot < g.slots }
    ensures { result ≡ area_place (geometry_of g) slot }
{
    (slot as usize) * (slot_width(g) as usize)
}

// That bit's place within its bitmap block: below 8B, so at most 32,767.
pub fn bit_place(g: Geometry, slot: u32) -> u16
    requires fits { Fits (geometry_of g) }
    requires slot_lt_slots { slot < g.slots }
    ensures { result ≡ bit_place (geometry_of g) slot }
{
    (area_place(g, slot) % (8 * (g.block_size as usize))) as u16
}

// Address of the bitmap block that holds that bit.
pub fn bit_address(g: Geometry, slot: u32) -> DiskAddress
    requires fits { Fits (geometry_of g) }
    requires slot_lt_slots { slot < g.slots }
    ensures { result.0 ≡ bit_address (geometry_of g) slot }
{
    let before = area_place(g, slot) / (8 * (g.block_size as usize));
    DiskAddress((1 + map_blocks(g) + before as u64) as u32)
}

// Whether two slots' bits lie in one bitmap block.
pub fn is_shared(g: Geometry, slot: u32, other: u32) -> bool
    requires { TwoSlots (geometry_of g) slot other }
    ensures { result ≡ is_shared (geometry_of g) slot other }
{
    let block = bit_address(g, slot).0;
    let other_block = bit_address(g, other).0;
    block == other_block
}

// Whether a slot holds a public block.
pub fn is_allocated(disk: &[u8], g: Geometry, slot: u32) -> bool
    requires drive { Drive (geometry_of g) disk.now }
    requires slot_lt_slots { slot < g.slots }
    ensures { result ≡ is_allocated (geometry_of g) disk.now slot }
{
    let block = block_at(disk, g, bit_address(g, slot));
    bit_at(block, bit_place(g, slot))
}

// Marks a slot as one that holds a public block: sets its bit, every other byte of the disk stays.
pub fn mark_slot(disk: &mut [u8], g: Geometry, slot: u32)
    requires drive { Drive (geometry_of g) disk.old }
    requires slot_lt_slots { slot < g.slots }
    ensures { disk.new ≡ set_block (block_width (geometry_of g)) disk.old
        (bit_address (geometry_of g) slot) (bitmap_with (geometry_of g) disk.old slot true) }
{
    let width = g.block_size as usize;
    let place = bit_place(g, slot);
    let address = bit_address(g, slot);
    let from = (address.0 as usize) * width;
    let to = from + width;
    set_bit(&mut disk[from..to], place, true);
}

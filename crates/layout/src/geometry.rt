// The geometry of a drive: read from its header, held to document 01's limits, and the areas that it lays
// out.
ghost use Rattle.std.specs.Prelude.{◌≡◌, true, ◌+◌, ◌*◌, ◌-◌, ◌/◌, ◌≤◌, ◌<◌, ◌^◌, length};
ghost use Rattle.laws.specs.Division.{ceil_div};
ghost use Rattle.model.specs.Geometry.{Fits, slot_width, fanout, map_blocks, area_blocks, bitmap_blocks};
ghost use Rattle.model.specs.Geometry.{root_address, area_start, block_count, tree_capacity, block_sizes, is_one_of};
ghost use Rattle.model.specs.Geometry.{is_geometry};
ghost use Rattle.model.specs.Layout.{geometry_in, head_in, slot_start, slot_of};
ghost use Rattle.layout.specs.Geometries.{geometry_of, Bounded, Shaped};

use crate::entries::entry_at;
use crate::numbers::DiskAddress;

// Block size B in bytes, height k of the hidden tree with its root, P public and H hidden blocks, M slots.
#[derive(Clone, Copy)]
pub struct Geometry {
    pub block_size: u32,
    pub height: u32,
    pub publics: u32,
    pub hidden: u32,
    pub slots: u32,
}

// The geometry that a disk's first 20 bytes state.
pub fn geometry_in(disk: &[u8]) -> Geometry
    requires { 24 ≤ length disk.now }
    ensures { geometry_of result ≡ geometry_in disk.now }
{
    Geometry {
        block_size: entry_at(disk, 0),
        height: entry_at(disk, 1),
        publics: entry_at(disk, 2),
        hidden: entry_at(disk, 3),
        slots: entry_at(disk, 4),
    }
}

// The head slot, where the next round is.
pub fn head_in(disk: &[u8]) -> u32
    requires { 24 ≤ length disk.now }
    ensures { result ≡ head_in disk.now }
{
    entry_at(disk, 5)
}

// Entries of four bytes in a block.
pub fn fanout(g: Geometry) -> u32
    ensures { result ≡ fanout (geometry_of g) }
{
    g.block_size / 4
}

// Blocks of a slot.
pub fn slot_width(g: Geometry) -> u32
    requires { g.height ≤ 4 }
    ensures { result ≡ slot_width (geometry_of g) }
{
    g.height + 1
}

// ---- limits ----

// Whether a number is one of the block sizes.
fn is_block_size(size: u32) -> bool
    ensures { result ≡ is_one_of size block_sizes }
{
    match size {
        32 | 64 | 128 | 256 | 512 | 1024 | 2048 | 4096 => true,
        _ => false,
    }
}

// Numbers that a tree has places for.
fn tree_capacity(g: Geometry) -> u64
    requires { Bounded (geometry_of g) }
    ensures { result ≡ tree_capacity (geometry_of g) }
{
    let fanout = fanout(g) as u64;
    let height = g.height;
    if height == 2 {
        return (fanout - 1) * fanout;
    }
    if height == 3 {
        return (fanout - 1) * (fanout * fanout);
    }
    (fanout - 1) * (fanout * fanout * fanout)
}

// Whether a geometry with a good block size and height is inside the other limits.
fn has_room(g: Geometry) -> bool
    requires { Shaped (geometry_of g) }
    ensures { result ≡ is_geometry (geometry_of g) }
{
    let publics = g.publics;
    let hidden = g.hidden;
    let slots = g.slots;
    if publics < 1 {
        return false;
    }
    if hidden < 1 {
        return false;
    }
    if slots <= publics {
        return false;
    }
    if slots <= hidden {
        return false;
    }
    if tree_capacity(g) < hidden as u64 {
        return false;
    }
    block_count(g) <= 2147483647
}

// Whether a geometry is inside document 01's limits, for any five numbers.
pub fn is_geometry(g: Geometry) -> bool
    ensures { result ≡ is_geometry (geometry_of g) }
{
    let height = g.height;
    if !is_block_size(g.block_size) {
        return false;
    }
    if height < 2 {
        return false;
    }
    if 4 < height {
        return false;
    }
    has_room(g)
}

// ---- areas ----

// Pieces that hold a whole.
fn ceil_div(whole: u64, piece: u64) -> u64
    requires { (0 < piece) × (whole + piece < 2 ^ 64) }
    ensures { result ≡ ceil_div whole piece }
{
    (whole + piece - 1) / piece
}

// Blocks of the public map.
pub fn map_blocks(g: Geometry) -> u64
    requires { Bounded (geometry_of g) }
    ensures { result ≡ map_blocks (geometry_of g) }
{
    ceil_div(g.publics as u64, fanout(g) as u64)
}

// Blocks of the data area.
fn area_blocks(g: Geometry) -> u64
    requires { Bounded (geometry_of g) }
    ensures { result ≡ area_blocks (geometry_of g) }
{
    (g.slots as u64) * (slot_width(g) as u64)
}

// Blocks of the bitmap.
pub fn bitmap_blocks(g: Geometry) -> u64
    requires { Bounded (geometry_of g) }
    ensures { result ≡ bitmap_blocks (geometry_of g) }
{
    ceil_div(area_blocks(g), 8 * (g.block_size as u64))
}

// All blocks of the drive, also where they are too many.
pub fn block_count(g: Geometry) -> u64
    requires { Bounded (geometry_of g) }
    ensures { result ≡ block_count (geometry_of g) }
{
    2 + map_blocks(g) + bitmap_blocks(g) + area_blocks(g)
}

// Address of the hidden tree's root.
pub fn root_address(g: Geometry) -> DiskAddress
    requires { Fits (geometry_of g) }
    ensures { result.0 ≡ root_address (geometry_of g) }
{
    DiskAddress((1 + map_blocks(g) + bitmap_blocks(g)) as u32)
}

// Address of the data area.
pub fn area_start(g: Geometry) -> DiskAddress
    requires { Fits (geometry_of g) }
    ensures { result.0 ≡ area_start (geometry_of g) }
{
    DiskAddress((2 + map_blocks(g) + bitmap_blocks(g)) as u32)
}

// Address of a slot's public block.
pub fn slot_start(g: Geometry, slot: u32) -> DiskAddress
    requires fits { Fits (geometry_of g) }
    requires slot_lt_slots { slot < g.slots }
    ensures { result.0 ≡ slot_start (geometry_of g) slot }
{
    let start = area_start(g);
    DiskAddress(start.0 + slot * slot_width(g))
}

// The slot that a block of the data area belongs to.
pub fn slot_of(g: Geometry, address: DiskAddress) -> u32
    requires fits { Fits (geometry_of g) }
    requires g_bound { area_start (geometry_of g) ≤ address.0 }
    ensures { result ≡ slot_of (geometry_of g) address.0 }
{
    let start = area_start(g);
    (address.0 - start.0) / slot_width(g)
}

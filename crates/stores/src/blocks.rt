// The one store function, and the store of a descriptor.
ghost use Rattle.std.specs.Prelude.{[], ◌∷◌, ◌<◌};
ghost use Rattle.model.specs.Geometry.{block_count, block_width};
ghost use Rattle.model.specs.Stores.{store};
ghost use Rattle.layout.specs.Geometries.{geometry_of};
ghost use Rattle.stores.specs.Made.{LentFor, Made};
ghost use Rattle.stores.specs.Descriptors.{store_of, Makeable};

use crate::changes::change_block;
use crate::copies::copy_at;
use crate::descriptors::{Descriptor, take_source};
use layout::geometry::Geometry;
use layout::numbers::DiskAddress;

// Enters the address next in the list and copies one whole block to the address; answers the index after it.
// The order makes the store a real one: for all that the compiler knows, list and disk may overlap and the
// entry may change the disk, so it cannot leave out the copy that follows, not even where no byte changes.
// The contract speaks of bytes and list alone, and the optimiser is not in the proof: that every store is
// made, whole and in order, is tested on the archive (bench, program `touched`).
fn store_block(
    disk: &mut [u8],
    list: &mut [u32],
    next: usize,
    g: Geometry,
    address: DiskAddress,
    block: &[u8],
) -> usize
    requires lent_for { LentFor (geometry_of g) disk.old block.now list.old next 1 }
    requires address_bound { address.0 < block_count (geometry_of g) }
    ensures { Made (block_width (geometry_of g)) (store address.0 block.now ∷ [])
        disk.old list.old next disk.new list.new result }
{
    let at = (address.0 as usize) * (g.block_size as usize);
    list[next] = address.0;
    copy_at(disk, at, block);
    next + 1
}

// Makes the store of a descriptor: its block is taken into a lent buffer of one block, changed there, and
// stored whole; answers the index after it in the list.
pub fn make_store(
    disk: &mut [u8],
    list: &mut [u32],
    next: usize,
    g: Geometry,
    descriptor: Descriptor,
    content: &[u8],
    blocks: &[u8],
    random: &[u8],
    buffer: &mut [u8],
) -> usize
    requires lent_for { LentFor (geometry_of g) disk.old buffer.old list.old next 1 }
    requires makeable { Makeable descriptor (geometry_of g) content.now blocks.now random.now }
    ensures { Made (block_width (geometry_of g)) (store_of descriptor (geometry_of g) disk.old
        content.now blocks.now random.now ∷ [])
        disk.old list.old next disk.new list.new result }
{
    take_source(disk, g, descriptor.source, content, blocks, random, buffer);
    change_block(buffer, descriptor.first);
    change_block(buffer, descriptor.second);
    store_block(disk, list, next, g, descriptor.address, buffer)
}

// Whole blocks of a disk, and of other bytes that are lent.
ghost use Rattle.std.specs.Prelude.{◌≡◌, ◌+◌, ◌*◌, ◌≤◌, ◌<◌, length};
ghost use Rattle.model.specs.Geometry.{block_count, block_width};
ghost use Rattle.model.specs.Blocks.{block_at};
ghost use Rattle.model.specs.Layout.{Drive};
ghost use Rattle.layout.specs.Geometries.{geometry_of};

use crate::geometry::Geometry;
use crate::numbers::DiskAddress;

// The block that stands so many blocks into lent bytes, as a part of them.
pub fn lent_block<'a>(lent: &'a [u8], g: Geometry, index: u32) -> &'a [u8]
    requires { index * (geometry_of g).block_size + (geometry_of g).block_size ≤ length lent.now }
    ensures { result.now ≡ block_at (block_width (geometry_of g)) lent.now index }
{
    let width = g.block_size as usize;
    let from = (index as usize) * width;
    let to = from + width;
    &lent[from..to]
}

// The block at an address, as a part of the disk.
pub fn block_at<'a>(disk: &'a [u8], g: Geometry, address: DiskAddress) -> &'a [u8]
    requires drive { Drive (geometry_of g) disk.now }
    requires address_bound { address.0 < block_count (geometry_of g) }
    ensures { result.now ≡ block_at (block_width (geometry_of g)) disk.now address.0 }
{
    lent_block(disk, g, address.0)
}

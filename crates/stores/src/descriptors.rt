// A store before it is made, and the block that it begins with.
ghost use Rattle.std.specs.Prelude.{◌≡◌};
ghost use Rattle.layout.specs.Geometries.{geometry_of};
ghost use Rattle.stores.specs.Descriptors.{plain_of, own_of, source_block, Fillable};

use crate::changes::Change;
use crate::copies::{clear_at, copy_at};
use layout::blocks::{block_at, lent_block};
use layout::geometry::Geometry;
use layout::numbers::DiskAddress;

// Where the block of a store is taken from: the disk, zeros, the call's data, or so many blocks into the lent
// blocks, for what is offered, or into the round's random bytes.
#[derive(Clone, Copy)]
pub enum Source {
    Disk(DiskAddress),
    Zeros,
    Content,
    Offered(u32),
    Random(u32),
}

// A store before it is made: where it goes, the block that it begins with, and what is changed in it, one
// change after the other.
#[derive(Clone, Copy)]
pub struct Descriptor {
    pub address: DiskAddress,
    pub source: Source,
    pub first: Change,
    pub second: Change,
}

// A block that is stored as it is taken.
pub fn plain(address: DiskAddress, source: Source) -> Descriptor
    ensures { result ≡ plain_of address source }
{
    Descriptor {
        address,
        source,
        first: Change::Nothing,
        second: Change::Nothing,
    }
}

// A block of the disk that is stored where it stands, with these changes.
pub fn own(address: DiskAddress, first: Change, second: Change) -> Descriptor
    ensures { result ≡ own_of address first second }
{
    Descriptor {
        address,
        source: Source::Disk(address),
        first,
        second,
    }
}

// Takes the block of a source into a lent buffer of one block.
pub fn take_source(
    disk: &[u8],
    g: Geometry,
    source: Source,
    content: &[u8],
    blocks: &[u8],
    random: &[u8],
    buffer: &mut [u8],
)
    requires { Fillable source (geometry_of g) disk.now content.now blocks.now random.now
        buffer.old }
    ensures { buffer.new ≡ source_block source (geometry_of g) disk.now
        content.now blocks.now random.now }
{
    match source {
        Source::Disk(address) => copy_at(buffer, 0, block_at(disk, g, address)),
        Source::Zeros => clear_at(buffer, 0, g.block_size as usize),
        Source::Content => copy_at(buffer, 0, content),
        Source::Offered(place) => copy_at(buffer, 0, lent_block(blocks, g, place)),
        Source::Random(index) => copy_at(buffer, 0, lent_block(random, g, index)),
    }
}

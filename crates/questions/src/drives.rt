// What every caller asks: which drive a disk is, and how large a drive of a geometry is.
ghost use Rattle.std.specs.Prelude.{◌≡◌};
ghost use Rattle.layout.specs.Geometries.{geometry_of};
ghost use Rattle.questions.specs.Drives.{identity_of, identity_in, size_of, size_for};

use layout::drives::open_drive;
use layout::geometry::{Geometry, block_count, head_in, is_geometry};
use layout::refusals::Refusal;

// ---- which drive a disk is ----

// The geometry and the head of a drive: the six numbers of its header.
#[derive(Clone, Copy)]
pub struct Identified {
    pub geometry: Geometry,
    pub head: u32,
}

// Which drive a disk is: 1 to 3, or the six numbers of its header. Only the header and the length are looked
// at.
pub fn identify(disk: &[u8]) -> Result<Identified, Refusal>
    ensures { identity_of result ≡ identity_in disk.now }
{
    let geometry = open_drive(disk)?;
    Ok(Identified {
        geometry,
        head: head_in(disk),
    })
}

// ---- how large a drive is ----

// The size of a drive in blocks and in bytes.
#[derive(Clone, Copy)]
pub struct Size {
    pub blocks: u32,
    pub bytes: u64,
}

// How large a drive of a geometry is, for any five numbers; 1 where they are outside the limits.
pub fn drive_size(geometry: Geometry) -> Result<Size, Refusal>
    ensures { size_of result ≡ size_for (geometry_of geometry) }
{
    if !is_geometry(geometry) {
        return Err(Refusal::Geometry);
    }
    let blocks = block_count(geometry);
    Ok(Size {
        blocks: blocks as u32,
        bytes: blocks * (geometry.block_size as u64),
    })
}

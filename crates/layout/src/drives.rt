// The door of every call: a disk is opened once, with refusals 1 to 3 or the geometry in its header.
ghost use Rattle.model.specs.Refusals.{drive_refusal};
ghost use Rattle.layout.specs.Drives.{OpenedAs};

use crate::geometry::{Geometry, geometry_in, head_in};
use crate::refusals::{Refusal, check_size};

// 1 to 3 of a disk, or the geometry in its header.
pub fn open_drive(disk: &[u8]) -> Result<Geometry, Refusal>
    ensures { OpenedAs (drive_refusal disk.now) disk.now result }
{
    let bytes = disk.len();
    if bytes < 24 {
        return Err(Refusal::Geometry);
    }
    let g = geometry_in(disk);
    check_size(bytes, g)?;
    if head_in(disk) < g.slots {
        return Ok(g);
    }
    Err(Refusal::Head)
}

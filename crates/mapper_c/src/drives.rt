// What every caller asks, for C: which drive a disk is, and how large a drive of five numbers is.
ghost use Rattle.std.specs.Prelude.{◌≡◌};
ghost use Rattle.questions.specs.Drives.{identity_in, size_for};
ghost use Rattle.answers_c.specs.Drives.{identity_said, size_said};
ghost use Rattle.mapper_c.specs.Geometries.{geometry_for};

use answers_c::drives::{Identified, Size};
use layout::geometry::Geometry;
use mapper::{drive_size, identify};

// Which drive a disk is; 1 to 3 and zeros where it is none. Nothing is changed.
#[unsafe(no_mangle)]
pub extern "C" fn pddm_identify(disk: &[u8]) -> Identified
    ensures { result ≡ identity_said (identity_in disk.now) }
{
    Identified::from(identify(disk))
}

// How large a drive of the geometry of these five numbers is; 1 and zeros where they are outside the limits.
#[unsafe(no_mangle)]
pub extern "C" fn pddm_drive_size(
    block_size: u32,
    height: u32,
    publics: u32,
    hidden: u32,
    slots: u32,
) -> Size
    ensures { result ≡ size_said (size_for (geometry_for block_size height publics hidden slots)) }
{
    let geometry = Geometry {
        block_size,
        height,
        publics,
        hidden,
        slots,
    };
    Size::from(drive_size(geometry))
}

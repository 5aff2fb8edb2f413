// Refusal 17, and the call.
ghost use Rattle.std.specs.Prelude.{◌≡◌};
ghost use Rattle.laws.specs.Checks.{first_of};
ghost use Rattle.model.specs.Layout.{Drive};
ghost use Rattle.layout.specs.Geometries.{geometry_of};
ghost use Rattle.layout.specs.Refusals.{answer_number};
ghost use Rattle.recovery_model.specs.Recovery.{map_checks};
ghost use Rattle.recovery.specs.Drives.{MendedAs, RecoveredAs};

use crate::bits::{clear_bits, set_marks};
use crate::entries::is_map_formed;
use crate::windows::is_map_apart;
use layout::drives::open_drive;
use layout::geometry::Geometry;
use layout::refusals::Refusal;

// 17 of a drive whose map has an entry, other than 0, that is no slot's public block or that two numbers
// share.
fn check_map(disk: &[u8], g: Geometry) -> Result<(), Refusal>
    requires { Drive (geometry_of g) disk.now }
    ensures { answer_number result ≡ first_of (map_checks (geometry_of g) disk.now) }
{
    if is_map_formed(disk, g) && is_map_apart(disk, g) {
        Ok(())
    } else {
        Err(Refusal::MapEntries)
    }
}

// Rebuilds a drive's bitmap from its map; refused by 17 it changes no byte.
fn mend_drive(disk: &mut [u8], g: Geometry) -> Result<(), Refusal>
    requires { Drive (geometry_of g) disk.old }
    ensures { MendedAs (geometry_of g) disk.old disk.new (answer_number result) }
{
    check_map(disk, g)?;
    clear_bits(disk, g);
    set_marks(disk, g);
    Ok(())
}

// Rebuilds the bitmap of a disk from its public map, all other bits 0; refused by 1 to 3, then by 17, it
// changes no byte. Cut anywhere, it is made again.
pub fn recover(disk: &mut [u8]) -> Result<(), Refusal>
    ensures { RecoveredAs disk.old disk.new (answer_number result) }
{
    let g = open_drive(disk)?;
    mend_drive(disk, g)
}

// The public map: P entries, one after another from block 1 on.
ghost use Rattle.std.specs.Prelude.{◌≡◌, ◌<◌};
ghost use Rattle.model.specs.Layout.{Drive, map_entry};
ghost use Rattle.layout.specs.Geometries.{geometry_of};

use crate::entries::entry_at;
use crate::geometry::{Geometry, fanout};
use crate::numbers::{DiskAddress, PublicNumber};

// A public number's entry: 0, or the address of its block.
pub fn map_entry(disk: &[u8], g: Geometry, number: PublicNumber) -> DiskAddress
    requires drive { Drive (geometry_of g) disk.now }
    requires number_lt_publics { number.0 < g.publics }
    ensures { result.0 ≡ map_entry (geometry_of g) disk.now number.0 }
{
    let index = fanout(g) as usize + number.0 as usize;
    DiskAddress(entry_at(disk, index))
}

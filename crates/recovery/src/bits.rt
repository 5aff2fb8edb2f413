// The bitmap: cleared, and marked from the map.
ghost use Rattle.std.specs.Prelude.{◌≡◌};
ghost use Rattle.model.specs.Layout.{Drive};
ghost use Rattle.layout.specs.Geometries.{geometry_of};
ghost use Rattle.recovery_model.specs.Recovery.{used_entries, with_marks, without_bits};
ghost use Rattle.recovery.specs.Windows.{Started};

use crate::entries::mark_entry;
use layout::geometry::{Geometry, bitmap_blocks, map_blocks};
use layout::numbers::PublicNumber;
use layout::public_map::map_entry;
use stores::copies::clear_at;

// Clears every bit of every bitmap block; every other byte of the disk stays.
pub fn clear_bits(disk: &mut [u8], g: Geometry)
    requires { Drive (geometry_of g) disk.old }
    ensures { disk.new ≡ without_bits (geometry_of g) disk.old }
{
    let width = g.block_size as u64;
    let from = ((1 + map_blocks(g)) * width) as usize;
    let count = (bitmap_blocks(g) * width) as usize;
    clear_at(disk, from, count);
}

// Marks the slot of every entry of the map that is not 0; every other bit and byte stays.
pub fn set_marks(disk: &mut [u8], g: Geometry)
    requires { Started (geometry_of g) disk.old }
    ensures { disk.new ≡ with_marks (geometry_of g)
        (used_entries (geometry_of g) disk.old) disk.old }
{
    for number in 0..g.publics {
        let entry = map_entry(disk, g, PublicNumber(number));
        mark_entry(disk, g, entry);
    }
}

// The entries of the map: each is 0 or a slot's start, and a slot is marked from its own.
ghost use Rattle.std.specs.Prelude.{◌≡◌, true, []};
ghost use Rattle.model.specs.Geometry.{Fits};
ghost use Rattle.model.specs.Layout.{Drive};
ghost use Rattle.layout.specs.Geometries.{geometry_of};
ghost use Rattle.recovery_model.specs.Recovery.{unless_zero, used_entries, are_starts, with_marks};

use layout::bitmap::mark_slot;
use layout::geometry::{Geometry, slot_of};
use layout::levels::is_slot_start;
use layout::numbers::{DiskAddress, PublicNumber};
use layout::public_map::map_entry;

// Whether an entry is 0 or block A of one of the slots.
fn is_formed(g: Geometry, entry: DiskAddress) -> bool
    requires { Fits (geometry_of g) }
    ensures { result ≡ are_starts (geometry_of g) (unless_zero entry.0 []) }
{
    entry == DiskAddress(0) || is_slot_start(g, entry)
}

// Whether every entry of the map is 0 or block A of one of the slots.
pub fn is_map_formed(disk: &[u8], g: Geometry) -> bool
    requires { Drive (geometry_of g) disk.now }
    ensures { result ≡ are_starts (geometry_of g) (used_entries (geometry_of g) disk.now) }
{
    (0..g.publics).all(|number| is_formed(g, map_entry(disk, g, PublicNumber(number))))
}

// Marks the slot of an entry that is 0 or block A of one of the slots; for 0 the disk stays as it is.
pub fn mark_entry(disk: &mut [u8], g: Geometry, entry: DiskAddress)
    requires drive { Drive (geometry_of g) disk.old }
    requires value { are_starts (geometry_of g) (unless_zero entry.0 []) ≡ true }
    ensures { disk.new ≡ with_marks (geometry_of g) (unless_zero entry.0 [])
        disk.old }
{
    if entry != DiskAddress(0) {
        mark_slot(disk, g, slot_of(g, entry));
    }
}

// A public number's place: refusals 4 to 6.
ghost use Rattle.std.specs.Prelude.{◌≡◌};
ghost use Rattle.laws.specs.Checks.{first_of};
ghost use Rattle.model.specs.Layout.{Drive, is_place};
ghost use Rattle.model.specs.Refusals.{place_checks};
ghost use Rattle.layout.specs.Geometries.{geometry_of};
ghost use Rattle.layout.specs.Refusals.{answer_number};

use layout::bitmap::is_allocated;
use layout::geometry::{Geometry, slot_of};
use layout::levels::is_slot_start;
use layout::numbers::{DiskAddress, PublicNumber};
use layout::public_map::map_entry;
use layout::refusals::Refusal;

// Whether an entry of the map is block A of an allocated slot.
pub fn is_place(disk: &[u8], g: Geometry, entry: DiskAddress) -> bool
    requires { Drive (geometry_of g) disk.now }
    ensures { result ≡ is_place (geometry_of g) disk.now entry.0 }
{
    if !is_slot_start(g, entry) {
        return false;
    }
    is_allocated(disk, g, slot_of(g, entry))
}

// 4 to 6 of a public number and the length of its data or blank.
pub fn check_place(
    disk: &[u8],
    g: Geometry,
    number: PublicNumber,
    size: usize,
) -> Result<(), Refusal>
    requires { Drive (geometry_of g) disk.now }
    ensures { answer_number result ≡ first_of (place_checks (geometry_of g) disk.now number.0 size) }
{
    let publics = g.publics;
    let asked = number.0;
    if publics <= asked {
        return Err(Refusal::PublicNumber);
    }
    if size != g.block_size as usize {
        return Err(Refusal::PublicSize);
    }
    let entry = map_entry(disk, g, number);
    if entry.0 == 0 {
        return Ok(());
    }
    if is_place(disk, g, entry) {
        return Ok(());
    }
    Err(Refusal::MapEntry)
}

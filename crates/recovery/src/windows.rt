// No two numbers share a place: the slots are taken a window of 32,768 at a time, one bit each in 4,096
// bytes, and the map is looked through once for each window.
ghost use Rattle.std.specs.Prelude.{◌≡◌, ◌<◌};
ghost use Rattle.layout.specs.Geometries.{geometry_of};
ghost use Rattle.recovery_model.specs.Recovery.{used_entries, are_apart};
ghost use Rattle.recovery.specs.Windows.{Window, Noted, Started, is_window_apart};

use layout::bitmap::{bit_at, set_bit};
use layout::geometry::{Geometry, slot_start, slot_width};
use layout::numbers::{DiskAddress, PublicNumber};
use layout::public_map::map_entry;

// Notes an entry in the bits of the window of slots that begins at `low`; answers whether it was noted
// before. An entry outside the window is not noted.
fn note_entry(seen: &mut [u8; 4096], low: u32, width: u32, entry: DiskAddress) -> bool
    requires { Window low width }
    ensures { Noted low width entry.0 seen.old seen.new result }
{
    let at = entry.0;
    if at < low {
        return false;
    }
    let past = at - low;
    if 32768 * width <= past {
        return false;
    }
    let place = (past / width) as u16;
    let was = bit_at(seen, place);
    set_bit(seen, place, true);
    was
}

// Whether no two numbers share a place in the window of slots that begins at `first`.
fn is_window_apart(disk: &[u8], g: Geometry, first: u32) -> bool
    requires started { Started (geometry_of g) disk.now }
    requires first_lt_slots { first < g.slots }
    ensures { result ≡ is_window_apart (geometry_of g) disk.now first }
{
    let start = slot_start(g, first);
    let low = start.0;
    let width = slot_width(g);
    let mut seen = [0u8; 4096];
    for number in 0..g.publics {
        let entry = map_entry(disk, g, PublicNumber(number));
        if note_entry(&mut seen, low, width, entry) {
            return false;
        }
    }
    true
}

// Whether no two numbers share a place.
pub fn is_map_apart(disk: &[u8], g: Geometry) -> bool
    requires { Started (geometry_of g) disk.now }
    ensures { result ≡ are_apart (used_entries (geometry_of g) disk.now) }
{
    for first in (0..g.slots).step_by(32768) {
        if !is_window_apart(disk, g, first) {
            return false;
        }
    }
    true
}

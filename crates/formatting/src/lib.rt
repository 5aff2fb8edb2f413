// Formatting: header (head 0), map, bitmap and root, all zero but for the header's entries; the data area
// stays.
#![tactic(auto)]

ghost use Rattle.std.specs.Prelude.{◌≡◌, ◌≤◌, length};
ghost use Rattle.laws.specs.Lists.{over};
ghost use Rattle.model.specs.Blocks.{packed};
ghost use Rattle.model.specs.Refusals.{format_refusal};
ghost use Rattle.model.specs.Calls.{formatted};
ghost use Rattle.layout.specs.Geometries.{geometry_of};
ghost use Rattle.layout.specs.Refusals.{answer_number};
ghost use Rattle.formatting.specs.Headers.{header_entries};

use layout::entries::put_entry;
use layout::geometry::{Geometry, area_start};
use layout::refusals::{Refusal, check_size};
use stores::copies::clear_at;

// Puts B, k, P, H, M and the head 0 into the first six entries; the other bytes stay.
fn put_header(disk: &mut [u8], g: Geometry)
    requires { 24 ≤ length disk.old }
    ensures { disk.new ≡ over 0 (packed (header_entries (geometry_of g))) disk.old }
{
    put_entry(disk, 0, g.block_size);
    put_entry(disk, 1, g.height);
    put_entry(disk, 2, g.publics);
    put_entry(disk, 3, g.hidden);
    put_entry(disk, 4, g.slots);
    put_entry(disk, 5, 0);
}

// Formats a disk for a geometry; 1 or 2 and no byte changed where it refuses.
pub fn format_drive(disk: &mut [u8], geometry: Geometry) -> Result<(), Refusal>
    ensures answered { answer_number result ≡ format_refusal disk.old (geometry_of geometry) }
    ensures stored { disk.new ≡ formatted disk.old (geometry_of geometry) }
{
    check_size(disk.len(), geometry)?;
    let start = area_start(geometry);
    clear_at(disk, 0, (start.0 as usize) * (geometry.block_size as usize));
    put_header(disk, geometry);
    Ok(())
}

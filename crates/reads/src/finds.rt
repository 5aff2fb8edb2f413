// Where the block of a number is, in either volume; and what a read shows of it.
ghost use Rattle.std.specs.Prelude.{◌≡◌};
ghost use Rattle.reads.specs.Finds.{BlockInside, find_of, hidden_find, public_find, shown_find};

use checks::numbers::check_hidden_number;
use checks::places::check_place;
use hidden_map::walks::{Reached, walk};
use layout::blocks::block_at;
use layout::drives::open_drive;
use layout::geometry::geometry_in;
use layout::numbers::{DiskAddress, HiddenNumber, PublicNumber};
use layout::public_map::map_entry;
use layout::refusals::Refusal;

// ---- the two volumes ----

// Where a public number's block is, none for a number never placed; 1 to 6 where a read with this blank is
// refused.
pub fn find_public(
    disk: &[u8],
    number: PublicNumber,
    blank: &[u8],
) -> Result<Option<DiskAddress>, Refusal>
    ensures { find_of result ≡ public_find disk.now number.0 blank.now }
{
    let g = open_drive(disk)?;
    check_place(disk, g, number, blank.len())?;
    let entry = map_entry(disk, g, number);
    if entry.0 == 0 {
        return Ok(None);
    }
    Ok(Some(entry))
}

// Where a hidden number's block is, none for a number never placed; 1 to 3 and 10 to 12 where a read with
// this blank is refused.
pub fn find_hidden(
    disk: &[u8],
    number: HiddenNumber,
    blank: &[u8],
) -> Result<Option<DiskAddress>, Refusal>
    ensures { find_of result ≡ hidden_find disk.now number.0 blank.now }
{
    let geometry = open_drive(disk)?;
    check_hidden_number(geometry, number, blank.len())?;
    let end = walk(disk, geometry, number).end;
    match end {
        Reached::Found(address) => Ok(Some(address)),
        Reached::Unmapped => Ok(None),
        Reached::Damaged => Err(Refusal::DamagedWalk),
    }
}

// ---- what a find shows ----

// What a read shows of a find: its block, as a part of the disk; the blank for a number never placed; an
// empty part of the blank where it is refused.
pub fn show<'a>(
    disk: &'a [u8],
    blank: &'a [u8],
    find: Result<Option<DiskAddress>, Refusal>,
) -> &'a [u8]
    requires { BlockInside (find_of find) disk.now }
    ensures { result.now ≡ shown_find (find_of find) disk.now blank.now }
{
    match find {
        Err(_) => &blank[..0],
        Ok(None) => blank,
        Ok(Some(address)) => block_at(disk, geometry_in(disk), address),
    }
}

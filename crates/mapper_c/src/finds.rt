// Where the block of a number stands, in either volume, for C.
ghost use Rattle.model.specs.Calls.{public_read, hidden_read};
ghost use Rattle.mapper_c.specs.Finds.{found_public, found_hidden, FindAnswered};

use answers_c::finds::Found;
use layout::numbers::{HiddenNumber, PublicNumber};
use reads::finds::{find_hidden, find_public};

// Finds the block of a public number. The block at the address, which lies wholly on the disk, or the blank
// is what `public_read` shows.
#[unsafe(no_mangle)]
pub extern "C" fn pddm_public_find(disk: &[u8], number: u32, blank: &[u8]) -> Found
    ensures { FindAnswered
        (found_public disk.now number blank.now)
        (public_read disk.now number blank.now)
        disk.now blank.now result }
{
    Found::from(find_public(disk, PublicNumber(number), blank))
}

// Finds the block of a hidden number. The block at the address, which lies wholly on the disk, or the blank
// is what `hidden_read` shows.
#[unsafe(no_mangle)]
pub extern "C" fn pddm_hidden_find(disk: &[u8], number: u32, blank: &[u8]) -> Found
    ensures { FindAnswered
        (found_hidden disk.now number blank.now)
        (hidden_read disk.now number blank.now)
        disk.now blank.now result }
{
    Found::from(find_hidden(disk, HiddenNumber(number), blank))
}

// What a write takes now: its rounds up to the first free slot, its stores and its random bytes; and its
// refusals.
ghost use Rattle.std.specs.Prelude.{◌≡◌, length};
ghost use Rattle.model.specs.Refusals.{write_refusal};
ghost use Rattle.model.specs.Needs.{needs_of, Suffices};
ghost use Rattle.layout.specs.Drives.{OpenedAs};
ghost use Rattle.layout.specs.Refusals.{answer_number};
ghost use Rattle.questions.specs.Needs.{needed_of};

use checks::counts::{check_rounds, round_count, write_store_count};
use checks::places::check_place;
use layout::drives::open_drive;
use layout::geometry::Geometry;
use layout::numbers::PublicNumber;
use layout::refusals::Refusal;

// 1 to 9 of a write, or the geometry of its drive: the header is judged here, once for the whole call.
pub fn open_write(
    disk: &[u8],
    number: PublicNumber,
    content: &[u8],
    random: &[u8],
    list: &[u32],
) -> Result<Geometry, Refusal>
    ensures { OpenedAs (write_refusal disk.now number.0 content.now
        (length random.now) (length list.now)) disk.now result }
{
    let g = open_drive(disk)?;
    check_place(disk, g, number, content.len())?;
    check_rounds(disk, g, number, random.len(), list.len())?;
    Ok(g)
}

// 1 to 9 of a write.
pub fn check_write(
    disk: &[u8],
    number: PublicNumber,
    content: &[u8],
    random: &[u8],
    list: &[u32],
) -> Result<(), Refusal>
    ensures { answer_number result ≡ write_refusal disk.now number.0 content.now
        (length random.now) (length list.now) }
{
    open_write(disk, number, content, random, list)?;
    Ok(())
}

// What a write takes now: its rounds, the stores that the list is to have room for, and the random bytes,
// counted in blocks.
#[derive(Clone, Copy)]
pub struct Needs {
    pub rounds: u32,
    pub stores: u32,
    pub random_blocks: u32,
}

// What a write of one block of data takes now; 1 to 4, 6 or 7 where no buffers would do. A write that is lent
// so much is not refused.
pub fn write_needs(disk: &[u8], number: PublicNumber) -> Result<Needs, Refusal>
    ensures needed { needed_of result ≡ needs_of disk.now number.0 }
    ensures enough { Suffices disk.now number.0 (needed_of result) }
{
    let g = open_drive(disk)?;
    check_place(disk, g, number, g.block_size as usize)?;
    let rounds = round_count(disk, g).ok_or(Refusal::NoFreeSlot)?;
    let stores = write_store_count(disk, g, number, rounds);
    Ok(Needs {
        rounds,
        stores,
        random_blocks: rounds * g.height,
    })
}

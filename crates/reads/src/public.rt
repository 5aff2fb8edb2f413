// The public volume: the public read and its refusals.
ghost use Rattle.std.specs.Prelude.{◌≡◌};
ghost use Rattle.model.specs.Refusals.{public_read_refusal};
ghost use Rattle.model.specs.Calls.{public_read};
ghost use Rattle.layout.specs.Refusals.{answer_number};

use crate::finds::{find_public, show};
use layout::numbers::PublicNumber;
use layout::refusals::Refusal;

// 1 to 6 of a public read.
pub fn check_public(disk: &[u8], number: PublicNumber, blank: &[u8]) -> Result<(), Refusal>
    ensures { answer_number result ≡ public_read_refusal disk.now number.0 blank.now }
{
    find_public(disk, number, blank)?;
    Ok(())
}

// A public number's block, as a part of the disk; the blank for a number never placed; an empty part of the
// blank where the read is refused.
pub fn public_read<'a>(disk: &'a [u8], number: PublicNumber, blank: &'a [u8]) -> &'a [u8]
    ensures { result.now ≡ public_read disk.now number.0 blank.now }
{
    show(disk, blank, find_public(disk, number, blank))
}

// The hidden volume: the hidden read and its refusals.
ghost use Rattle.std.specs.Prelude.{◌≡◌};
ghost use Rattle.model.specs.Refusals.{hidden_read_refusal};
ghost use Rattle.model.specs.Calls.{hidden_read};
ghost use Rattle.layout.specs.Refusals.{answer_number};

use crate::finds::{find_hidden, show};
use layout::numbers::HiddenNumber;
use layout::refusals::Refusal;

// 1 to 3 and 10 to 12 of a hidden read.
pub fn check_hidden(disk: &[u8], number: HiddenNumber, blank: &[u8]) -> Result<(), Refusal>
    ensures { answer_number result ≡ hidden_read_refusal disk.now number.0 blank.now }
{
    find_hidden(disk, number, blank)?;
    Ok(())
}

// A hidden number's block, as a part of the disk; the blank for a number never placed; an empty part of the
// blank where the read is refused.
pub fn hidden_read<'a>(disk: &'a [u8], number: HiddenNumber, blank: &'a [u8]) -> &'a [u8]
    ensures { result.now ≡ hidden_read disk.now number.0 blank.now }
{
    show(disk, blank, find_hidden(disk, number, blank))
}

// The write, for C.
ghost use Rattle.std.specs.Prelude.{length};
ghost use Rattle.model.specs.Calls.{written};
ghost use Rattle.mapper.specs.Writes.{call_offer};
ghost use Rattle.mapper_c.specs.Writes.{Answered};

use crate::offers::lent_offer;
use answers_c::writes::Written;
use layout::numbers::PublicNumber;
use mapper::write_block;

// Writes a public number's data, and the hidden write that is offered where a slot takes it. A refused write
// changes neither disk nor list.
#[unsafe(no_mangle)]
pub extern "C" fn pddm_write(
    disk: &mut [u8],
    number: u32,
    content: &[u8],
    offered: bool,
    hidden_number: u32,
    hidden: &[u8],
    random: &[u8],
    list: &mut [u32],
) -> Written
    ensures { Answered
        (written disk.old number content.now random.now
        (length list.old) (call_offer offered hidden_number hidden.now))
        disk.old list.old disk.new list.new result }
{
    let offer = lent_offer(offered, hidden_number, hidden);
    let written = write_block(disk, PublicNumber(number), content, offer, random, list);
    Written::from(written)
}

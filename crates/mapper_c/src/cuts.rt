// The writes that are cut after so many stores (document 02, K5), for C.
ghost use Rattle.std.specs.Prelude.{length};
ghost use Rattle.model.specs.Line.{handed_over};
ghost use Rattle.model.specs.Calls.{in_line, written};
ghost use Rattle.line.specs.Gathered.{offers_by};
ghost use Rattle.mapper.specs.Writes.{call_offer};
ghost use Rattle.mapper_c.specs.Cuts.{CutTold};

use crate::offers::lent_offer;
use answers_c::cuts::Cut;
use layout::numbers::PublicNumber;
use line::gathered::gather_line;
use mapper::{write_cut, write_line_cut};

// Writes a public number's data, and the hidden write that is offered where a slot takes it, up to so many
// stores. A refused write changes neither disk nor list, and is not cut.
#[unsafe(no_mangle)]
pub extern "C" fn pddm_write_cut(
    disk: &mut [u8],
    number: u32,
    content: &[u8],
    offered: bool,
    hidden_number: u32,
    hidden: &[u8],
    random: &[u8],
    list: &mut [u32],
    bound: usize,
) -> Cut
    ensures { CutTold
        (written disk.old number content.now random.now
        (length list.old) (call_offer offered hidden_number hidden.now)) bound
        disk.old list.old disk.new list.new result }
{
    let offer = lent_offer(offered, hidden_number, hidden);
    let written = write_cut(
        disk,
        PublicNumber(number),
        content,
        offer,
        random,
        list,
        bound,
    );
    Cut::from(written)
}

// Likewise with the line that two runs of numbers hand over, which stays as it is lent.
#[unsafe(no_mangle)]
pub extern "C" fn pddm_write_line_cut(
    disk: &mut [u8],
    number: u32,
    content: &[u8],
    blocks: &[u8],
    numbers: &[u32],
    places: &[u32],
    waiting: u32,
    random: &[u8],
    list: &mut [u32],
    bound: usize,
) -> Cut
    ensures { CutTold
        (written disk.old number content.now random.now
        (length list.old) (in_line blocks.now
        (handed_over waiting (offers_by numbers.now places.now)))) bound
        disk.old list.old disk.new list.new result }
{
    let line = gather_line(numbers, places, waiting);
    let carried = write_line_cut(
        disk,
        PublicNumber(number),
        content,
        line,
        blocks,
        random,
        list,
        bound,
    );
    Cut::from(carried.map(|made| made.cut))
}

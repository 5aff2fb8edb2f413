// The write as a pulled plug leaves it (document 02, K5): stopped after its first so many stores. A refused
// one makes no store and is not cut; 8 and 9 are judged by the whole write, not by the bound.
ghost use Rattle.std.specs.Prelude.{length};
ghost use Rattle.model.specs.Calls.{in_line, written};
ghost use Rattle.line.specs.Offers.{line_of};
ghost use Rattle.mapper.specs.Writes.{brought_by};
ghost use Rattle.mapper.specs.Cuts.{CutAnswered, LineCutAnswered};

use crate::offers::HiddenOffer;
use crate::within::{line_within, write_within};
use layout::numbers::PublicNumber;
use layout::refusals::Refusal;
use line::offers::Line;

// The stores that were made of a write that is not refused, and whether some were left out.
#[derive(Clone, Copy)]
pub struct CutWritten {
    pub stores: u32,
    pub is_cut: bool,
}

// Likewise, and the line without the numbers that were placed; as it was lent where the write is cut.
#[derive(Clone, Copy)]
pub struct LineCutWritten {
    pub cut: CutWritten,
    pub line: Line,
}

// The first so many stores of a write with the hidden write that is offered, if one is.
pub fn write_cut(
    disk: &mut [u8],
    number: PublicNumber,
    content: &[u8],
    offer: Option<HiddenOffer>,
    random: &[u8],
    list: &mut [u32],
    bound: usize,
) -> Result<CutWritten, Refusal>
    ensures { CutAnswered (written disk.old number.0 content.now
        random.now (length list.old)
        (brought_by offer.entry)) bound disk.old
        list.old disk.new list.new result }
{
    let done = write_within(disk, number, content, offer, random, list, bound)?;
    Ok(CutWritten {
        stores: done.written.stores,
        is_cut: done.is_cut,
    })
}

// The first so many stores of a write with a line.
pub fn write_line_cut(
    disk: &mut [u8],
    number: PublicNumber,
    content: &[u8],
    line: Line,
    blocks: &[u8],
    random: &[u8],
    list: &mut [u32],
    bound: usize,
) -> Result<LineCutWritten, Refusal>
    ensures { LineCutAnswered (written disk.old number.0 content.now
        random.now (length list.old) (in_line blocks.now (line_of line)))
        bound disk.old list.old blocks.now line disk.new
        list.new result }
{
    let done = line_within(disk, number, content, line, blocks, random, list, bound)?;
    Ok(LineCutWritten {
        cut: CutWritten {
            stores: done.written.written.stores,
            is_cut: done.is_cut,
        },
        line: done.written.line,
    })
}

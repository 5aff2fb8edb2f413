// The write with a lent line of waiting offers (document 02, K3), for C.
ghost use Rattle.std.specs.Prelude.{length};
ghost use Rattle.model.specs.Line.{handed_over};
ghost use Rattle.model.specs.Calls.{in_line, written};
ghost use Rattle.line.specs.Offers.{offers_of};
ghost use Rattle.mapper_c.specs.LineWrites.{LentWritten};

use answers_c::line_writes::{LineWritten, line_written_as};
use layout::numbers::PublicNumber;
use lent_line::{load_lent, save_lent};
use line::offers::Offer;
use mapper::write_line;

// Writes a public number's data, and offers of the lent line where slots take them, the first first. Those
// that stay wait from its front on, and entries past them keep their values. A refused write changes neither
// disk nor list nor line.
#[unsafe(no_mangle)]
pub extern "C" fn pddm_write_line(
    disk: &mut [u8],
    number: u32,
    content: &[u8],
    blocks: &[u8],
    line: &mut [Offer],
    waiting: u32,
    random: &[u8],
    list: &mut [u32],
) -> LineWritten
    ensures { LentWritten
        (written disk.old number content.now random.now
        (length list.old)
        (in_line blocks.now (handed_over waiting (offers_of line.old))))
        disk.old list.old blocks.now
        (handed_over waiting (offers_of line.old)) line.old
        disk.new list.new line.new result }
{
    let held = load_lent(line, waiting);
    let written = write_line(
        disk,
        PublicNumber(number),
        content,
        held,
        blocks,
        random,
        list,
    );
    let told = line_written_as(held, written);
    match written {
        Ok(made) => save_lent(line, made.line),
        Err(_) => {}
    }
    told
}

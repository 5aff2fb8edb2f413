// An offer that enters a lent line (document 02, K3), for C.
ghost use Rattle.model.specs.Line.{handed_over};
ghost use Rattle.line.specs.Offers.{offers_of};
ghost use Rattle.mapper_c.specs.LineEnters.{entering_offer, LentEntered};

use answers_c::enters::{Entered, entered_as};
use layout::numbers::HiddenNumber;
use lent_line::{load_lent, save_lent};
use line::offers::Offer;
use line_calls::enters::enter_line;

// Enters an offer into the lent line, in its number's turn or at the end; its block is at a place among these
// blocks. It changes the line alone, and where it is refused not even that.
#[unsafe(no_mangle)]
pub extern "C" fn pddm_enter(
    disk: &[u8],
    number: u32,
    place: u32,
    blocks: &[u8],
    line: &mut [Offer],
    waiting: u32,
) -> Entered
    ensures { LentEntered
        disk.now (entering_offer number place) blocks.now
        (handed_over waiting (offers_of line.old)) line.old line.new result }
{
    let offer = Offer {
        number: HiddenNumber(number),
        place,
    };
    let held = load_lent(line, waiting);
    let entered = enter_line(disk, offer, blocks, held, line.len());
    let told = entered_as(held, entered);
    match entered {
        Ok(left) => save_lent(line, left),
        Err(_) => {}
    }
    told
}

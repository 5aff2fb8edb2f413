// The write of one line, and its line of output.
ghost use Rattle.std.specs.Prelude.{◌≡◌, ◌≤◌, length};
ghost use Rattle.mapper.specs.Writes.{brought_by, told_by_write, WriteAnswered};
ghost use Rattle.script.specs.Lines.{plain_offer};
ghost use Rattle.script.specs.Texts.{Put};
ghost use Rattle.script.specs.Reports.{report_room};
ghost use Rattle.listing.specs.Writes.{list_room, offered_with, line_write, told_text, Reported};

use layout::geometry::head_in;
use layout::numbers::{HiddenNumber, PublicNumber};
use layout::refusals::{Refusal, refusal_number};
use mapper::{HiddenOffer, Outcome, Written, outcome_number, write_block};
use script::reports::put_report;

// The hidden write of these bytes, where a number is offered.
fn offer_with<'a>(offer: Option<HiddenNumber>, content: &'a [u8]) -> Option<HiddenOffer<'a>>
    ensures { brought_by result ≡ offered_with content.now (plain_offer offer) }
{
    offer.map(|number| HiddenOffer { number, content })
}

// Writes a line: data of its number mod 256, 256 random bytes of 165, and a list of 23 entries.
fn write_line(
    disk: &mut [u8],
    list: &mut [u32],
    line: u64,
    number: PublicNumber,
    offer: Option<HiddenNumber>,
) -> Result<Written, Refusal>
    requires { length list.old ≡ list_room }
    ensures { WriteAnswered (line_write disk.old line number.0 (plain_offer offer))
        disk.old list.old disk.new list.new result }
{
    let data = [(line % 256) as u8; 32];
    let random = [165u8; 256];
    let offered = offer_with(offer, &data);
    write_block(disk, number, &data, offered, &random, list)
}

// Puts the line of output of what a write told, of its stores at the front of a list.
fn put_made(
    out: &mut [u8],
    line: u64,
    made: Result<Written, Refusal>,
    head: u32,
    list: &[u32],
) -> usize
    requires stores_in_bounds { (told_by_write made).stores ≤ length list.now }
    requires room_in_bounds { report_room (told_by_write made).stores ≤ length out.old }
    ensures { Put (told_text line (told_by_write made) head list.now) out.old 0
        out.new result }
{
    match made {
        Ok(written) => {
            let outcome = outcome_number(written.outcome);
            let stores = written.stores as usize;
            put_report(out, line, 0, written.rounds, outcome, head, &list[..stores])
        }
        Err(refusal) => {
            let answer = refusal_number(refusal);
            let outcome = outcome_number(Outcome::NotTried);
            put_report(out, line, answer, 0, outcome, head, &list[..0])
        }
    }
}

// Writes a line, puts its line of output at the front of the buffer and answers the length.
pub fn report_line(
    disk: &mut [u8],
    line: u64,
    number: PublicNumber,
    offer: Option<HiddenNumber>,
    out: &mut [u8],
) -> usize
    requires in_bounds { 24 ≤ length disk.old }
    requires list_room_in_bounds { report_room list_room ≤ length out.old }
    ensures { Reported line number.0 (plain_offer offer) disk.old disk.new
        out.old out.new result }
{
    let mut list = [0u32; 23];
    let made = write_line(disk, &mut list, line, number, offer);
    let head = head_in(disk);
    put_made(out, line, made, head, &list)
}

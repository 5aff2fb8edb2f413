// The whole write: a public number's data, and what is carried along for the hidden volume: one offer or
// none, or a line of offers. It is the form with a bound (`within`), uncut: the list has room for all its
// stores.
ghost use Rattle.std.specs.Prelude.{◌≡◌, length};
ghost use Rattle.model.specs.Calls.{in_line, outcome_number, written};
ghost use Rattle.line.specs.Offers.{line_of};
ghost use Rattle.mapper.specs.Writes.{outcome_of, brought_by, WriteAnswered, LineAnswered};

use crate::offers::HiddenOffer;
use crate::within::{line_within, write_within};
use layout::numbers::PublicNumber;
use layout::refusals::Refusal;
use line::offers::Line;

// What has become of the offer: none was made, placed, waiting, not tried since the write is refused, 10, 11,
// or 12.
#[derive(Clone, Copy)]
pub enum Outcome {
    NoWrite,
    Placed,
    Waiting,
    NotTried,
    BadNumber,
    BadSize,
    DamagedWalk,
}

// Document 01's number of an outcome; none, placed, waiting and not tried are 0 to 3.
pub fn outcome_number(outcome: Outcome) -> u8
    ensures { result ≡ outcome_number (outcome_of outcome) }
{
    match outcome {
        Outcome::NoWrite => 0,
        Outcome::Placed => 1,
        Outcome::Waiting => 2,
        Outcome::NotTried => 3,
        Outcome::BadNumber => 10,
        Outcome::BadSize => 11,
        Outcome::DamagedWalk => 12,
    }
}

// What a write came to that is not refused: its rounds, its stores, and what has become of the offer.
#[derive(Clone, Copy)]
pub struct Written {
    pub rounds: u32,
    pub stores: u32,
    pub outcome: Outcome,
}

// Likewise, how many offers it placed, and the line without their numbers.
#[derive(Clone, Copy)]
pub struct LineWritten {
    pub written: Written,
    pub placed: u32,
    pub line: Line,
}

// Writes a public number's data, and the hidden write that is offered where a slot takes it. A refused write
// changes neither disk nor list.
pub fn write_block(
    disk: &mut [u8],
    number: PublicNumber,
    content: &[u8],
    offer: Option<HiddenOffer>,
    random: &[u8],
    list: &mut [u32],
) -> Result<Written, Refusal>
    ensures { WriteAnswered (written disk.old number.0 content.now
        random.now (length list.old)
        (brought_by offer.entry)) disk.old
        list.old disk.new list.new result }
{
    let room = list.len();
    let done = write_within(disk, number, content, offer, random, list, room)?;
    Ok(done.written)
}

// Writes a public number's data, and offers of the line where slots take them, the first first. A refused
// write changes neither disk nor list, and its line is the one that was lent.
pub fn write_line(
    disk: &mut [u8],
    number: PublicNumber,
    content: &[u8],
    line: Line,
    blocks: &[u8],
    random: &[u8],
    list: &mut [u32],
) -> Result<LineWritten, Refusal>
    ensures { LineAnswered (written disk.old number.0 content.now
        random.now (length list.old) (in_line blocks.now (line_of line)))
        disk.old list.old blocks.now line disk.new
        list.new result }
{
    let room = list.len();
    let done = line_within(disk, number, content, line, blocks, random, list, room)?;
    Ok(done.written)
}

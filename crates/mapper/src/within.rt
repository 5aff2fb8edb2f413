// The inner form of the write (document 02, K5): it makes only its first so many stores, in order, and leaves
// disk and list as these do. Refusals 1 to 9 are those of the whole write, and a refused one is not cut. One
// that is cut tells no rounds, that its offers were not tried, and hands its line back as it is.
ghost use Rattle.std.specs.Prelude.{◌≡◌, ◌≢◌, ℕ, cond, List, ◌<◌, ◌^◌, length};
ghost use Rattle.model.specs.HiddenHalf.{HiddenWrite};
ghost use Rattle.model.specs.Calls.{in_line, not_tried, offer_outcome, written};
ghost use Rattle.layout.specs.Refusals.{answer_number};
ghost use Rattle.line.specs.Offers.{line_of};
ghost use Rattle.mapper.specs.Writes.{outcome_of, brought_by};
ghost use Rattle.mapper.specs.Within.{state_with, DoneAnswered, bounded_of, BoundedAnswered};
ghost use Rattle.mapper.specs.Within.{LineFits, LineDone, line_bounded_of, LineBoundedAnswered};

use crate::offers::{HiddenOffer, check_offered, offer_count, write_or_none};
use crate::write::{LineWritten, Outcome, Written};
use layout::geometry::head_in;
use layout::numbers::PublicNumber;
use layout::refusals::Refusal;
use line::changes::left_of;
use line::offers::{Line, Offer, held, waiting_offers};
use line::turns::turns_of;
use plans::states::State;
use questions::needs::open_write;
use rounds::runs::{Ran, run_write};

// What a write came to that is not refused, of whose stores those were made that its bound leaves room for,
// and whether others were left out.
#[derive(Clone, Copy)]
pub struct Bounded {
    pub written: Written,
    pub is_cut: bool,
}

// Likewise with a line.
#[derive(Clone, Copy)]
pub struct LineBounded {
    pub written: LineWritten,
    pub is_cut: bool,
}

// What has become of good turns: by the state after the rounds, and by how many they were.
fn outcome_of(state: State, count: usize) -> Outcome
    ensures { (bad : ℕ) (writes : List HiddenWrite) → bad ≢ 10 → bad ≢ 11 → length writes ≡ count →
        outcome_of result ≡ offer_outcome bad (state_with state writes) }
{
    if state.placed != 0 {
        return Outcome::Placed;
    }
    if state.met_damage {
        return Outcome::DamagedWalk;
    }
    if state.placed < count {
        return Outcome::Waiting;
    }
    Outcome::NoWrite
}

// What has become of what was carried along: by its refusal, and else by its turns.
fn outcome_judged(judged: Result<(), Refusal>, state: State, count: usize) -> Outcome
    ensures { (writes : List HiddenWrite) → length writes ≡ count →
        outcome_of result ≡ offer_outcome (answer_number judged) (state_with state writes) }
{
    match judged {
        Err(Refusal::HiddenNumber) => Outcome::BadNumber,
        Err(Refusal::HiddenSize) => Outcome::BadSize,
        _ => outcome_of(state, count),
    }
}

// Likewise of a write that may be cut: then it was not tried.
fn outcome_within(is_cut: bool, judged: Result<(), Refusal>, state: State, count: usize) -> Outcome
    ensures { (writes : List HiddenWrite) → length writes ≡ count →
        outcome_of result ≡ cond is_cut not_tried
        (offer_outcome (answer_number judged) (state_with state writes)) }
{
    if is_cut {
        return Outcome::NotTried;
    }
    outcome_judged(judged, state, count)
}

// ---- the write ----

// What the rounds of a write came to.
fn answer_done(judged: Result<(), Refusal>, ran: Ran, count: usize) -> Bounded
    requires { ran.next < 2 ^ 32 }
    ensures { DoneAnswered (answer_number judged) ran count result }
{
    let stores = ran.next;
    let state = ran.state;
    let is_cut = ran.is_cut;
    Bounded {
        written: Written {
            rounds: ran.rounds,
            stores: stores as u32,
            outcome: outcome_within(is_cut, judged, state, count),
        },
        is_cut,
    }
}

// Writes a public number's data, and the hidden write that is offered where a slot takes it, up to the bound.
pub fn write_within(
    disk: &mut [u8],
    number: PublicNumber,
    content: &[u8],
    offer: Option<HiddenOffer>,
    random: &[u8],
    list: &mut [u32],
    bound: usize,
) -> Result<Bounded, Refusal>
    ensures { BoundedAnswered (written disk.old number.0 content.now
        random.now (length list.old)
        (brought_by offer.entry)) bound disk.old
        list.old disk.new list.new (bounded_of result) }
{
    let g = open_write(disk, number, content, random, list)?;
    let head = head_in(disk);
    let judged = check_offered(g, offer);
    let count = offer_count(offer, judged);
    let write = write_or_none(offer);
    let turn = [Offer {
        number: write.number,
        place: 0,
    }];
    let ran = run_write(
        disk,
        list,
        bound,
        g,
        number,
        head,
        content,
        random,
        &turn[..count],
        write.content,
    );
    Ok(answer_done(judged, ran, count))
}

// ---- with a line ----

// What the rounds of a write with a line came to, and the line without what they placed.
fn answer_line(ran: Ran, turns: Line, line: Line) -> LineBounded
    requires { LineFits ran turns }
    ensures { LineDone ran turns line result }
{
    let offers = waiting_offers(&turns);
    let done = answer_done(Ok(()), ran, offers.len());
    let state = ran.state;
    let placed = state.placed;
    LineBounded {
        written: LineWritten {
            written: done.written,
            placed: placed as u32,
            line: left_of(line, &offers[..placed]),
        },
        is_cut: done.is_cut,
    }
}

// Writes a public number's data, and offers of the line where slots take them, the first first, up to the
// bound.
fn turns_within(
    disk: &mut [u8],
    number: PublicNumber,
    content: &[u8],
    line: Line,
    blocks: &[u8],
    random: &[u8],
    list: &mut [u32],
    bound: usize,
) -> Result<LineBounded, Refusal>
    ensures { LineBoundedAnswered (written disk.old number.0 content.now
        random.now (length list.old) (in_line blocks.now (line_of line)))
        bound disk.old list.old blocks.now line disk.new
        list.new (line_bounded_of line result) }
{
    let g = open_write(disk, number, content, random, list)?;
    let head = head_in(disk);
    let turns = turns_of(line, g, blocks.len());
    let ran = run_write(
        disk,
        list,
        bound,
        g,
        number,
        head,
        content,
        random,
        waiting_offers(&turns),
        blocks,
    );
    Ok(answer_line(ran, turns, line))
}

// Likewise; where nothing waits it is the write with nothing offered.
pub fn line_within(
    disk: &mut [u8],
    number: PublicNumber,
    content: &[u8],
    line: Line,
    blocks: &[u8],
    random: &[u8],
    list: &mut [u32],
    bound: usize,
) -> Result<LineBounded, Refusal>
    ensures { LineBoundedAnswered (written disk.old number.0 content.now
        random.now (length list.old) (in_line blocks.now (line_of line)))
        bound disk.old list.old blocks.now line disk.new
        list.new (line_bounded_of line result) }
{
    if held(line) != 0 {
        return turns_within(disk, number, content, line, blocks, random, list, bound);
    }
    let done = write_within(disk, number, content, None, random, list, bound)?;
    Ok(LineBounded {
        written: LineWritten {
            written: done.written,
            placed: 0,
            line,
        },
        is_cut: done.is_cut,
    })
}

// The rounds of a write, from the head on until one takes the call's data.
ghost use Rattle.std.specs.Prelude.{length};
ghost use Rattle.layout.specs.Geometries.{geometry_of};
ghost use Rattle.line.specs.Offers.{offers_of};
ghost use Rattle.rounds.specs.Runs.{turns_run, Runnable, RunLent, RunMade};

use crate::rounds::do_round;
use layout::geometry::Geometry;
use layout::numbers::PublicNumber;
use line::offers::Offer;
use line::turns::first_of;
use plans::states::{State, state_after};

// The index after all stores in the list, how many rounds there were, how far the turns came, and whether the
// bound cut the run: then rounds and turns are told as if there had been none.
#[derive(Clone, Copy)]
pub struct Ran {
    pub next: usize,
    pub rounds: u32,
    pub state: State,
    pub is_cut: bool,
}

// Rounds from a slot on, at most one for each slot, each with the first turn that is not placed yet. Round i
// has the i-th k × B random bytes. The run ends where the list has come to the bound.
pub fn do_rounds(
    disk: &mut [u8],
    list: &mut [u32],
    first: usize,
    bound: usize,
    g: Geometry,
    number: PublicNumber,
    head: u32,
    content: &[u8],
    random: &[u8],
    turns: &[Offer],
    blocks: &[u8],
    buffer: &mut [u8],
) -> Ran
    requires runnable { Runnable (geometry_of g) disk.old number.0 head content.now random.now
        (offers_of turns.now) blocks.now (turns_run (geometry_of g) disk.old number.0
        head content.now random.now (offers_of turns.now) blocks.now) first
        (length list.old) }
    requires run_lent { RunLent (geometry_of g) buffer.old first bound }
    ensures { RunMade (geometry_of g) disk.old list.old first bound (turns_run
        (geometry_of g) disk.old number.0 head content.now random.now
        (offers_of turns.now) blocks.now)
        (offers_of turns.now) blocks.now disk.new
        list.new result }
{
    let slots = g.slots;
    let width = (g.height as usize) * (g.block_size as usize);
    let mut slot = head;
    let mut next = first;
    let mut reached = State {
        placed: 0,
        met_damage: false,
    };
    for done in 0..slots {
        let from = (done as usize) * width;
        let placed = reached.placed;
        let waiting = first_of(turns, placed);
        let step = do_round(
            disk,
            list,
            next,
            bound,
            g,
            number,
            slot,
            content,
            &random[from..],
            waiting,
            blocks,
            buffer,
        );
        next = step.next;
        if step.is_cut {
            return Ran {
                next,
                rounds: 0,
                state: State {
                    placed: 0,
                    met_damage: false,
                },
                is_cut: true,
            };
        }
        let turn = step.turn;
        reached = state_after(reached, turn);
        if !step.goes_on {
            return Ran {
                next,
                rounds: done + 1,
                state: reached,
                is_cut: false,
            };
        }
        slot = (slot + 1) % slots;
    }
    Ran {
        next,
        rounds: slots,
        state: reached,
        is_cut: false,
    }
}

// The rounds of a write from the head on, with a buffer of its own; the stores are entered from the front of
// the list.
pub fn run_write(
    disk: &mut [u8],
    list: &mut [u32],
    bound: usize,
    g: Geometry,
    number: PublicNumber,
    head: u32,
    content: &[u8],
    random: &[u8],
    turns: &[Offer],
    blocks: &[u8],
) -> Ran
    requires { Runnable (geometry_of g) disk.old number.0 head content.now random.now
        (offers_of turns.now) blocks.now (turns_run (geometry_of g) disk.old number.0
        head content.now random.now (offers_of turns.now) blocks.now) 0
        (length list.old) }
    ensures { RunMade (geometry_of g) disk.old list.old 0 bound (turns_run
        (geometry_of g) disk.old number.0 head content.now random.now
        (offers_of turns.now) blocks.now)
        (offers_of turns.now) blocks.now disk.new
        list.new result }
{
    let size = g.block_size as usize;
    let mut buffer = [0u8; 4096];
    do_rounds(
        disk,
        list,
        0,
        bound,
        g,
        number,
        head,
        content,
        random,
        turns,
        blocks,
        &mut buffer[..size],
    )
}

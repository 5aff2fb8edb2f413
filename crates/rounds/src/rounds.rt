// One round: planned, and then stored.
ghost use Rattle.std.specs.Prelude.{◌≡◌, List, min, take};
ghost use Rattle.model.specs.Geometry.{block_width};
ghost use Rattle.model.specs.HiddenHalf.{HiddenWrite, HiddenState};
ghost use Rattle.model.specs.Rounds.{choice_goes_on};
ghost use Rattle.layout.specs.Geometries.{geometry_of};
ghost use Rattle.stores.specs.Made.{Made};
ghost use Rattle.table.specs.Rows.{public_of};
ghost use Rattle.plans.specs.States.{waiting_by};
ghost use Rattle.round_stores.specs.Planned.{planned_trace};
ghost use Rattle.rounds.specs.Rounds.{StoresReady, RoundReady, RoundLent, RoundDone};

use layout::geometry::Geometry;
use layout::numbers::PublicNumber;
use line::offers::Offer;
use plans::plans::plan_round;
use plans::public_plans::plan_public;
use plans::states::Turn;
use round_stores::planned::{PlannedRound, round_store, store_count};
use stores::blocks::make_store;
use table::PublicChoice;

// The index after a round's stores in the list, what it did with the first one waiting, whether another round
// follows, and whether the bound cut it.
#[derive(Clone, Copy)]
pub struct Step {
    pub next: usize,
    pub turn: Turn,
    pub goes_on: bool,
    pub is_cut: bool,
}

// Whether a round with this choice is followed by another.
fn is_kept(choice: PublicChoice) -> bool
    ensures { result ≡ choice_goes_on (public_of choice) }
{
    choice == PublicChoice::Keep
}

// Makes the first so many stores of a planned round, one after another; answers the index after them in the
// list.
fn store_round(
    disk: &mut [u8],
    list: &mut [u32],
    first: usize,
    g: Geometry,
    round: PlannedRound,
    count: u32,
    content: &[u8],
    blocks: &[u8],
    random: &[u8],
    buffer: &mut [u8],
) -> usize
    requires { StoresReady (geometry_of g) disk.old buffer.old list.old first round count content.now
        blocks.now random.now }
    ensures { Made (block_width (geometry_of g)) (take count (planned_trace round (geometry_of g)
        disk.old content.now blocks.now random.now))
        disk.old list.old first disk.new list.new result }
{
    let mut next = first;
    for place in 0..count {
        let descriptor = round_store(g, round, place);
        next = make_store(
            disk, list, next, g, descriptor, content, blocks, random, buffer,
        );
    }
    next
}

// A round at a slot, with the first one waiting, whoever waits behind it; of its stores those are made that
// the bound leaves room for, the first first.
pub fn do_round(
    disk: &mut [u8],
    list: &mut [u32],
    next: usize,
    bound: usize,
    g: Geometry,
    number: PublicNumber,
    slot: u32,
    content: &[u8],
    random: &[u8],
    first: Option<Offer>,
    blocks: &[u8],
    buffer: &mut [u8],
) -> Step
    requires round_lent { RoundLent (geometry_of g) disk.old buffer.old list.old next bound number.0 slot
        content.now random.now first blocks.now }
    requires round_ready { RoundReady (geometry_of g) disk.old number.0 slot content.now random.now first
        blocks.now }
    ensures { (later : List HiddenWrite) (state : HiddenState) →
        state.waiting ≡ waiting_by (geometry_of g) blocks.now first later →
        RoundDone (geometry_of g) disk.old list.old next bound number.0 slot
        content.now random.now later state disk.new list.new result }
{
    let plans = plan_round(disk, g, slot, first);
    let choice = plans.choice;
    let plan = plans.plan;
    let turn = plans.turn;
    let round = PlannedRound {
        slot,
        public: plan_public(disk, g, number, slot, choice),
        hidden: plan,
    };
    let all = store_count(g, round);
    let room = bound - next;
    let count = (all as usize).min(room) as u32;
    let last = store_round(
        disk, list, next, g, round, count, content, blocks, random, buffer,
    );
    Step {
        next: last,
        turn,
        goes_on: is_kept(choice),
        is_cut: count < all,
    }
}

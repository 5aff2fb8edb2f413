// What document 02 says of how long an offer waits (K12). The drive has H 7: an offer is placed by round 8,
// and the second of a line by round 16.
use crate::carries::CarryRow;
use crate::offers::OfferRow;
use crate::tells::WaitRow;
use figure_lines::lines::Put;
use figure_lines::output::Output;
use figure_lines::rows::run_rows;

// entry put, bytes lent; head, answer, rounds
const WAITS: [WaitRow; 6] = [
    // from head 0 the eighth slot is the first that is not live, from head 7 the first one
    WaitRow(None, 896, 0, 0, 8),
    WaitRow(Some(Put(5, 1)), 896, 1, 0, 7),
    WaitRow(Some(Put(5, 7)), 896, 7, 0, 1),
    // 1 to 3, and no rounds
    WaitRow(None, 23, 0, 1, 0),
    WaitRow(None, 895, 0, 2, 0),
    WaitRow(Some(Put(5, 8)), 896, 8, 3, 0),
];

// hidden number, how many writes it is offered before; outcome
const OFFERS: [OfferRow; 8] = [
    // waiting seven times, placed in the eighth write
    OfferRow(3, 0, 2),
    OfferRow(3, 1, 2),
    OfferRow(3, 2, 2),
    OfferRow(3, 3, 2),
    OfferRow(3, 4, 2),
    OfferRow(3, 5, 2),
    OfferRow(3, 6, 2),
    OfferRow(3, 7, 1),
];

// ---- lines ----

// In hex digits how many wait, and number and place of each.
const THREE: u64 = 0x1_3000_0000;

const SIX_FIVE: u64 = 0x2_6051_0000;

const THREE_TWO: u64 = 0x2_3021_0000;

// line, offers left; rounds, writes that told waiting
const CARRIES: [CarryRow; 5] = [
    // a line of one, as the offer alone
    CarryRow(THREE, 0, 8, 7),
    // the slot that the first one leaves comes last in the circle, or before
    CarryRow(SIX_FIVE, 1, 8, 7),
    CarryRow(SIX_FIVE, 0, 15, 13),
    CarryRow(THREE_TWO, 1, 8, 7),
    CarryRow(THREE_TWO, 0, 12, 10),
];

// Answers how many rows of what the call tells agree.
pub fn wait_rows(output: &mut Output) -> u32 {
    run_rows(output, &WAITS)
}

// Answers how many rows of an offer that is made with each write agree.
pub fn offer_rows(output: &mut Output) -> u32 {
    run_rows(output, &OFFERS)
}

// Answers how many rows of a line that is carried along agree.
pub fn carry_rows(output: &mut Output) -> u32 {
    run_rows(output, &CARRIES)
}

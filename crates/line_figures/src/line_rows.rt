// What document 02 says of a line of waiting offers (K3). The lent blocks are three, of bytes 9, 10 and 11,
// the blank is of bytes 5.
use crate::enters::EnterRow;
use crate::writes::WriteRow;
use figure_lines::output::Output;
use figure_lines::rows::run_rows;

// ---- lines ----

// In hex digits how many wait, and number and place of each of the first four; past them number i is at
// place 0.
const NOBODY: u64 = 0;

const ZERO: u64 = 0x1_0000_0000;

const ONE: u64 = 0x1_1100_0000;

const ONE_LAST: u64 = 0x1_1200_0000;

const ZERO_TWICE: u64 = 0x2_0000_0000;

const ONE_TWICE: u64 = 0x2_1111_0000;

const TWO: u64 = 0x2_0011_0000;

const REPLACED: u64 = 0x2_0211_0000;

const TWICE: u64 = 0x3_0001_1200;

const LAST_IN_FRONT: u64 = 0x3_1201_1200;

const PASSED: u64 = 0x2_2015_0000;

const BEHIND: u64 = 0x3_2015_0100;

const OUTSIDE: u64 = 0x2_0501_0000;

const ZERO_SEVEN: u64 = 0x2_0071_0000;

const SEVEN_ZERO: u64 = 0x2_7100_0000;

const SIXTEEN: u64 = 0x10_0010_2030;

const THREE_AGAIN: u64 = 0x10_0010_2032;

// ---- offers that enter ----

// byte before formatting, bytes, P, H, M, root entry, line, number and place of the offer, offers lent;
// answer, line after it
const ENTERS: [EnterRow; 8] = [
    // a new number at the end, a waiting one in its turn
    EnterRow(0, 512, 3, 2, 4, 0, NOBODY, 0, 0, 4, 0, ZERO),
    EnterRow(0, 512, 3, 2, 4, 0, ZERO, 1, 1, 4, 0, TWO),
    EnterRow(0, 512, 3, 2, 4, 0, TWO, 0, 2, 4, 0, REPLACED),
    // 16 for a seventeenth number, after 10 and 11; not for a waiting one
    EnterRow(0, 1952, 1, 18, 19, 0, SIXTEEN, 16, 0, 17, 16, SIXTEEN),
    EnterRow(0, 1952, 1, 18, 19, 0, SIXTEEN, 16, 3, 17, 11, SIXTEEN),
    EnterRow(0, 1952, 1, 18, 19, 0, SIXTEEN, 18, 3, 17, 10, SIXTEEN),
    EnterRow(0, 1952, 1, 18, 19, 0, SIXTEEN, 3, 2, 17, 0, THREE_AGAIN),
    // 16 for a new number where the lent line is full
    EnterRow(0, 512, 3, 2, 4, 0, ZERO, 1, 0, 1, 16, ZERO),
];

// ---- writes ----

// Stored by one round: the slot's blocks, the root, the map, the bitmap and the header.
const S0: [u32; 17] = [4, 5, 6, 3, 1, 2, 0, 99, 99, 99, 99, 99, 99, 99, 99, 99, 99];

const S1: [u32; 17] = [7, 8, 9, 3, 1, 2, 0, 99, 99, 99, 99, 99, 99, 99, 99, 99, 99];

// By the three rounds of the fifth write: slots 0 and 1, which are in use, and slot 2.
const S5: [u32; 17] = [4, 5, 6, 3, 0, 7, 8, 9, 3, 0, 10, 11, 12, 3, 1, 2, 0];

// byte before formatting, bytes, P, H, M, root entry, writes with an empty line, all writes before, last
// number, line; answer, rounds, stores, outcome, placed, line left, head, addresses stored, answer and byte
// shown of reads of hidden 0 and of hidden 1, lent line after it
const WRITES: [WriteRow; 12] = [
    // two wait, one round: the first is placed, the other keeps its turn, and the next write places it
    WriteRow(
        0, 512, 3, 2, 4, 0, 0, 0, 0, TWO, 0, 1, 7, 1, 1, ONE, 1, S0, 0, 9, 0, 10, ONE_TWICE,
    ),
    WriteRow(
        0, 512, 3, 2, 4, 0, 0, 1, 0, TWO, 0, 1, 7, 1, 1, NOBODY, 2, S1, 0, 9, 0, 10, ONE,
    ),
    // after writes 0, 1, 2 and 2 three rounds place both
    WriteRow(
        0, 512, 3, 2, 4, 0, 4, 4, 2, TWO, 0, 3, 17, 1, 2, NOBODY, 3, S5, 0, 9, 0, 10, TWO,
    ),
    // a number twice: the first counts, the other leaves with it; past those left the lent line stays
    WriteRow(
        0,
        512,
        3,
        2,
        4,
        0,
        0,
        0,
        0,
        TWICE,
        0,
        1,
        7,
        1,
        1,
        ONE_LAST,
        1,
        S0,
        0,
        9,
        0,
        11,
        LAST_IN_FRONT,
    ),
    // passed over: 2 is not below H, place 5 lies outside; they stay, and alone they are none to wait for
    WriteRow(
        0, 512, 3, 2, 4, 0, 0, 0, 0, BEHIND, 0, 1, 7, 1, 1, PASSED, 1, S0, 0, 10, 0, 5, BEHIND,
    ),
    WriteRow(
        0, 512, 3, 2, 4, 0, 0, 1, 0, BEHIND, 0, 1, 7, 0, 0, PASSED, 2, S1, 0, 10, 0, 5, PASSED,
    ),
    // where the first of a number is passed over, the number is
    WriteRow(
        0, 512, 3, 2, 4, 0, 0, 0, 0, OUTSIDE, 0, 1, 7, 0, 0, OUTSIDE, 1, S0, 0, 5, 0, 5, OUTSIDE,
    ),
    // a read shows the waiting block and gives no 12; of a number that does not wait it gives 12
    WriteRow(
        165, 512, 3, 2, 4, 6, 0, 0, 0, ZERO, 0, 1, 7, 12, 0, ZERO, 1, S0, 0, 9, 12, 256, ZERO,
    ),
    // a damaged first one is not passed over; behind another it waits for the round after
    WriteRow(
        165, 992, 1, 8, 9, 6, 0, 0, 0, ZERO_SEVEN, 0, 1, 7, 12, 0, ZERO_SEVEN, 1, S0, 0, 9, 12,
        256, ZERO_SEVEN,
    ),
    WriteRow(
        165, 992, 1, 8, 9, 6, 0, 0, 0, SEVEN_ZERO, 0, 1, 7, 1, 1, ZERO, 1, S0, 0, 9, 12, 256,
        ZERO_TWICE,
    ),
    WriteRow(
        165, 992, 1, 8, 9, 6, 0, 1, 0, SEVEN_ZERO, 0, 1, 7, 12, 0, ZERO, 2, S1, 0, 9, 12, 256, ZERO,
    ),
    // the line that entering left
    WriteRow(
        0, 512, 3, 2, 4, 0, 0, 0, 0, REPLACED, 0, 1, 7, 1, 1, ONE, 1, S0, 0, 11, 0, 10, ONE_TWICE,
    ),
];

// Answers how many rows of offers that enter agree.
pub fn enter_rows(output: &mut Output) -> u32 {
    run_rows(output, &ENTERS)
}

// Answers how many rows of writes with a line agree.
pub fn line_write_rows(output: &mut Output) -> u32 {
    run_rows(output, &WRITES)
}

// What document 01 says of writes, and document 02 of the stores of a drive with two bitmap blocks (K2).
use crate::drives::Made::{Fresh, Moved, Slot, Written};
use crate::writes::{Offered, RefusedRow, WriteRow};
use figure_lines::lines::Put;
use figure_lines::output::Output;
use figure_lines::rows::run_rows;

// how made, entry put, bytes lent, number, bytes of data, random bytes, room; answer
const REFUSALS: [RefusedRow; 13] = [
    // 1: block size 48, and too few bytes for a header; 2: a byte less; 3: head 4
    RefusedRow(Fresh, Some(Put(0, 48)), 512, 0, 32, 64, 7, 1),
    RefusedRow(Fresh, None, 23, 0, 32, 64, 7, 1),
    RefusedRow(Fresh, None, 511, 0, 32, 64, 7, 2),
    RefusedRow(Fresh, Some(Put(5, 4)), 512, 0, 32, 64, 7, 3),
    // 6: the map entry is no slot's first block, and that of a free slot; 7: bits 0, 3, 6 and 9 are set
    RefusedRow(Fresh, Some(Put(8, 5)), 512, 0, 32, 64, 7, 6),
    RefusedRow(Fresh, Some(Put(8, 4)), 512, 0, 32, 64, 7, 6),
    RefusedRow(Fresh, Some(Put(16, 585)), 512, 0, 32, 64, 7, 7),
    // 4 and 5: the number, and a byte of the data less; 8 and 9: a random byte less, and an entry less
    RefusedRow(Fresh, None, 512, 3, 32, 64, 7, 4),
    RefusedRow(Fresh, None, 512, 0, 31, 64, 7, 5),
    RefusedRow(Fresh, None, 512, 0, 32, 63, 7, 8),
    RefusedRow(Fresh, None, 512, 0, 32, 64, 6, 9),
    // 8 and 9 of the fifth write, of three rounds
    RefusedRow(Written(4), None, 512, 2, 32, 191, 17, 8),
    RefusedRow(Written(4), None, 512, 2, 32, 192, 16, 9),
];

// Stored by one round: the slot's blocks, the root, the map, the bitmap and the header.
const S0: [u32; 17] = [4, 5, 6, 3, 1, 2, 0, 0, 0, 0, 0, 0, 0, 0, 0, 0, 0];

const S1: [u32; 17] = [7, 8, 9, 3, 1, 2, 0, 0, 0, 0, 0, 0, 0, 0, 0, 0, 0];

const S2: [u32; 17] = [10, 11, 12, 3, 1, 2, 0, 0, 0, 0, 0, 0, 0, 0, 0, 0, 0];

const S3: [u32; 17] = [13, 14, 15, 3, 1, 2, 0, 0, 0, 0, 0, 0, 0, 0, 0, 0, 0];

// By the three rounds of the fifth write: slots 0 and 1, which are in use, and slot 2.
const S5: [u32; 17] = [4, 5, 6, 3, 0, 7, 8, 9, 3, 0, 10, 11, 12, 3, 1, 2, 0];

// The last slot of the first bitmap block, the first of the second, which stores both blocks, and the next.
const S85: [u32; 17] = [260, 261, 262, 4, 1, 2, 0, 0, 0, 0, 0, 0, 0, 0, 0, 0, 0];

const S86: [u32; 17] = [263, 264, 265, 4, 1, 3, 2, 0, 0, 0, 0, 0, 0, 0, 0, 0, 0];

const S87: [u32; 17] = [266, 267, 268, 4, 1, 3, 0, 0, 0, 0, 0, 0, 0, 0, 0, 0, 0];

// how made, entry put, bytes lent, number, what is offered, random bytes, room; rounds, stores, outcome,
// addresses stored
const WRITES: [WriteRow; 16] = [
    // the first write: without an offer, with two bad ones, and with one that is placed
    WriteRow(Fresh, None, 512, 0, None, 64, 8, 1, 7, 0, S0),
    WriteRow(
        Fresh,
        None,
        512,
        0,
        Some(Offered(2, 32)),
        64,
        8,
        1,
        7,
        10,
        S0,
    ),
    WriteRow(
        Fresh,
        None,
        512,
        0,
        Some(Offered(1, 33)),
        64,
        8,
        1,
        7,
        11,
        S0,
    ),
    WriteRow(
        Fresh,
        None,
        512,
        0,
        Some(Offered(1, 32)),
        64,
        8,
        1,
        7,
        1,
        S0,
    ),
    // just enough random bytes and room for it
    WriteRow(Fresh, None, 512, 0, None, 64, 7, 1, 7, 0, S0),
    // writes 0, 1, 2 and 2, and the fifth, 2 again, with just enough
    WriteRow(Fresh, None, 512, 0, None, 256, 23, 1, 7, 0, S0),
    WriteRow(Written(1), None, 512, 1, None, 256, 23, 1, 7, 0, S1),
    WriteRow(Written(2), None, 512, 2, None, 256, 23, 1, 7, 0, S2),
    WriteRow(Written(3), None, 512, 2, None, 256, 23, 1, 7, 0, S3),
    WriteRow(Written(4), None, 512, 2, None, 192, 17, 3, 17, 0, S5),
    // outcome 12: the root's first entry is hidden data; with an offer and without
    WriteRow(
        Fresh,
        Some(Put(24, 6)),
        512,
        0,
        Some(Offered(0, 32)),
        64,
        7,
        1,
        7,
        12,
        S0,
    ),
    WriteRow(Fresh, Some(Put(24, 6)), 512, 0, None, 64, 7, 1, 7, 12, S0),
    // the offer waits: the head slot is that of hidden number 0, and free for public data
    WriteRow(
        Slot,
        Some(Put(16, 0)),
        512,
        1,
        Some(Offered(1, 32)),
        64,
        7,
        1,
        7,
        2,
        S0,
    ),
    // number 0 moves within the first bitmap block, from it to the second, and within the second
    WriteRow(Moved(85), None, 9760, 0, None, 64, 8, 1, 7, 0, S85),
    WriteRow(Moved(86), None, 9760, 0, None, 64, 8, 1, 8, 0, S86),
    WriteRow(Moved(87), None, 9760, 0, None, 64, 8, 1, 7, 0, S87),
];

// Answers how many refused writes agree.
pub fn refused_rows(output: &mut Output) -> u32 {
    run_rows(output, &REFUSALS)
}

// Answers how many writes agree.
pub fn write_rows(output: &mut Output) -> u32 {
    run_rows(output, &WRITES)
}

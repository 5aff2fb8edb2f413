// What document 01 says of drives that are identified, of reads and of what writes take.
use crate::asks::Volume::{Hidden, Public};
use crate::asks::{IdentityRow, NeedsRow, ReadRow};
use crate::drives::Made::{Fresh, Slot, Written};
use figure_lines::lines::Put;
use figure_lines::output::Output;
use figure_lines::rows::run_rows;

// how made, entry put, bytes lent; answer, B, k, P, H, M, head
const IDENTITIES: [IdentityRow; 6] = [
    // heads 0 and 3
    IdentityRow(Slot, Some(Put(5, 0)), 512, 0, 32, 2, 3, 2, 4, 0),
    IdentityRow(Slot, Some(Put(5, 3)), 512, 0, 32, 2, 3, 2, 4, 3),
    // refusals 1 (block size 48, too few bytes for a header), 2 and 3 (head 4), with zeros
    IdentityRow(Slot, Some(Put(0, 48)), 512, 1, 0, 0, 0, 0, 0, 0),
    IdentityRow(Slot, Some(Put(5, 0)), 23, 1, 0, 0, 0, 0, 0, 0),
    IdentityRow(Slot, Some(Put(5, 0)), 511, 2, 0, 0, 0, 0, 0, 0),
    IdentityRow(Slot, Some(Put(5, 4)), 512, 3, 0, 0, 0, 0, 0, 0),
];

// how made, entry put, bytes lent, volume, number, bytes of the blank; answer, first byte shown
const READS: [ReadRow; 23] = [
    // never placed on a fresh drive
    ReadRow(Fresh, None, 512, Public, 1, 32, 0, 9),
    // the header's bytes past 24 are not looked at
    ReadRow(Fresh, Some(Put(7, 99)), 512, Public, 1, 32, 0, 9),
    // placed, and never placed
    ReadRow(Slot, None, 512, Public, 0, 32, 0, 7),
    ReadRow(Slot, None, 512, Public, 1, 32, 0, 9),
    ReadRow(Slot, None, 512, Hidden, 0, 32, 0, 8),
    ReadRow(Slot, None, 512, Hidden, 1, 32, 0, 9),
    // refusal 1: block size 48, and too few bytes for a header
    ReadRow(Slot, Some(Put(0, 48)), 512, Public, 0, 32, 1, 256),
    ReadRow(Slot, Some(Put(0, 48)), 512, Hidden, 0, 32, 1, 256),
    ReadRow(Fresh, None, 23, Public, 0, 32, 1, 256),
    ReadRow(Fresh, None, 23, Hidden, 0, 32, 1, 256),
    // refusal 2: slots 5, and a byte less
    ReadRow(Slot, Some(Put(4, 5)), 512, Public, 0, 32, 2, 256),
    ReadRow(Slot, Some(Put(4, 5)), 512, Hidden, 0, 32, 2, 256),
    ReadRow(Fresh, None, 511, Public, 0, 32, 2, 256),
    ReadRow(Fresh, None, 511, Hidden, 0, 32, 2, 256),
    // refusal 3: head 4
    ReadRow(Slot, Some(Put(5, 4)), 512, Public, 0, 32, 3, 256),
    ReadRow(Slot, Some(Put(5, 4)), 512, Hidden, 0, 32, 3, 256),
    // refusals 4 and 5, 10 and 11: the number, and a byte less or more
    ReadRow(Slot, None, 512, Public, 3, 32, 4, 256),
    ReadRow(Slot, None, 512, Public, 0, 31, 5, 256),
    ReadRow(Slot, None, 512, Hidden, 2, 32, 10, 256),
    ReadRow(Slot, None, 512, Hidden, 0, 33, 11, 256),
    // refusal 6: the map entry is no slot's first block, and that of a free slot
    ReadRow(Slot, Some(Put(8, 5)), 512, Public, 0, 32, 6, 256),
    ReadRow(Slot, Some(Put(8, 7)), 512, Public, 0, 32, 6, 256),
    // refusal 12: the root's first entry is hidden data
    ReadRow(Slot, Some(Put(24, 6)), 512, Hidden, 0, 32, 12, 256),
];

// how made, entry put, number; answer, rounds, stores, random blocks
const NEEDS: [NeedsRow; 4] = [
    // the first write, and a number past the last
    NeedsRow(Fresh, None, 0, 0, 1, 7, 2),
    NeedsRow(Fresh, None, 3, 4, 0, 0, 0),
    // no free slot: bits 0, 3, 6 and 9 are set
    NeedsRow(Fresh, Some(Put(16, 585)), 0, 7, 0, 0, 0),
    // the fifth write, of three rounds
    NeedsRow(Written(4), None, 2, 0, 3, 17, 6),
];

// Answers how many identities agree.
pub fn identity_rows(output: &mut Output) -> u32 {
    run_rows(output, &IDENTITIES)
}

// Answers how many reads agree.
pub fn read_rows(output: &mut Output) -> u32 {
    run_rows(output, &READS)
}

// Answers how many of the needs agree.
pub fn needs_rows(output: &mut Output) -> u32 {
    run_rows(output, &NEEDS)
}

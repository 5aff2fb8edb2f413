// What document 01 says of geometries ("Figures to hold against", refusals 1 and 2), and document 02 of the
// largest place of a bit (K4).
use crate::layouts::{FormatRow, SizeRow};
use figure_lines::output::Output;
use figure_lines::rows::run_rows;

// B, k, P, H, M, slot; answer, blocks T, bytes, start D of the data area, place of the slot's bit
const SIZES: [SizeRow; 7] = [
    // document 01's example, and a block size between two
    SizeRow(32, 2, 3, 2, 4, 3, 0, 16, 512, 4, 9),
    SizeRow(48, 2, 3, 2, 4, 3, 1, 0, 0, 0, 0),
    // 2^31 - 1 blocks, the most, and a map block more
    SizeRow(
        4096,
        2,
        3072,
        1,
        715806036,
        715806035,
        0,
        2147483647,
        8796093018112,
        65539,
        32761,
    ),
    SizeRow(4096, 2, 3073, 1, 715806036, 715806035, 1, 0, 0, 0, 0),
    // the last slot of the first bitmap block, the slot after it, and that whose bit has the largest place
    SizeRow(4096, 2, 1, 1, 21846, 10922, 0, 65544, 268468224, 6, 32766),
    SizeRow(4096, 2, 1, 1, 21846, 10923, 0, 65544, 268468224, 6, 1),
    SizeRow(4096, 2, 1, 1, 21846, 21845, 0, 65544, 268468224, 6, 32767),
];

// B, k, P, H, M, bytes formatted, index; answer, the byte at the index after it
const FORMATS: [FormatRow; 33] = [
    // the header of a fresh drive, least byte first: B
    FormatRow(32, 2, 3, 2, 4, 512, 0, 0, 32),
    FormatRow(32, 2, 3, 2, 4, 512, 1, 0, 0),
    FormatRow(32, 2, 3, 2, 4, 512, 2, 0, 0),
    FormatRow(32, 2, 3, 2, 4, 512, 3, 0, 0),
    // k
    FormatRow(32, 2, 3, 2, 4, 512, 4, 0, 2),
    FormatRow(32, 2, 3, 2, 4, 512, 5, 0, 0),
    FormatRow(32, 2, 3, 2, 4, 512, 6, 0, 0),
    FormatRow(32, 2, 3, 2, 4, 512, 7, 0, 0),
    // P
    FormatRow(32, 2, 3, 2, 4, 512, 8, 0, 3),
    FormatRow(32, 2, 3, 2, 4, 512, 9, 0, 0),
    FormatRow(32, 2, 3, 2, 4, 512, 10, 0, 0),
    FormatRow(32, 2, 3, 2, 4, 512, 11, 0, 0),
    // H
    FormatRow(32, 2, 3, 2, 4, 512, 12, 0, 2),
    FormatRow(32, 2, 3, 2, 4, 512, 13, 0, 0),
    FormatRow(32, 2, 3, 2, 4, 512, 14, 0, 0),
    FormatRow(32, 2, 3, 2, 4, 512, 15, 0, 0),
    // M
    FormatRow(32, 2, 3, 2, 4, 512, 16, 0, 4),
    FormatRow(32, 2, 3, 2, 4, 512, 17, 0, 0),
    FormatRow(32, 2, 3, 2, 4, 512, 18, 0, 0),
    FormatRow(32, 2, 3, 2, 4, 512, 19, 0, 0),
    // the head
    FormatRow(32, 2, 3, 2, 4, 512, 20, 0, 0),
    FormatRow(32, 2, 3, 2, 4, 512, 21, 0, 0),
    FormatRow(32, 2, 3, 2, 4, 512, 22, 0, 0),
    FormatRow(32, 2, 3, 2, 4, 512, 23, 0, 0),
    // the last byte before the data area, and the first in it, which stays
    FormatRow(32, 2, 3, 2, 4, 512, 127, 0, 0),
    FormatRow(32, 2, 3, 2, 4, 512, 128, 0, 170),
    // the most hidden blocks of height 2
    FormatRow(32, 2, 1, 56, 57, 5600, 0, 0, 32),
    // refused, no byte being changed: a hidden block more, as many public blocks as slots, bad block sizes
    FormatRow(32, 2, 1, 57, 58, 5696, 0, 1, 170),
    FormatRow(32, 2, 4, 2, 4, 512, 0, 1, 170),
    FormatRow(16, 2, 3, 2, 4, 256, 0, 1, 170),
    FormatRow(48, 2, 3, 2, 4, 768, 0, 1, 170),
    // a byte less, and too few for a header
    FormatRow(32, 2, 3, 2, 4, 511, 0, 2, 170),
    FormatRow(32, 2, 3, 2, 4, 23, 0, 1, 170),
];

// Answers how many sizes agree.
pub fn size_rows(output: &mut Output) -> u32 {
    run_rows(output, &SIZES)
}

// Answers how many formattings agree.
pub fn format_rows(output: &mut Output) -> u32 {
    run_rows(output, &FORMATS)
}

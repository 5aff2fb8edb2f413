// What document 02 says of pulled plugs (K5). The whole write has 17 stores: hidden 0 is placed in the second
// round, whose root is store 9, and the map block is store 15.
use crate::cuts::CutRow;
use crate::line_cuts::LineCutRow;
use crate::maps::MapRow;
use figure_lines::output::Output;
use figure_lines::rows::run_rows;

// bound; stores, is cut, public read before the recovery; public 0, hidden 0, bitmap bytes
const CUTS: [CutRow; 8] = [
    CutRow(0, 0, true, 0, 2, 5, 73, 0),
    // hidden 0 is new once the root is stored
    CutRow(8, 8, true, 0, 2, 5, 73, 0),
    CutRow(9, 9, true, 0, 2, 8, 73, 0),
    CutRow(14, 14, true, 0, 2, 8, 73, 0),
    // public 0 is new once the map block is stored, and refused until its bit is set
    CutRow(15, 15, true, 6, 8, 8, 65, 2),
    CutRow(16, 16, true, 0, 8, 8, 65, 2),
    // the whole write
    CutRow(17, 17, false, 0, 8, 8, 65, 2),
    CutRow(18, 17, false, 0, 8, 8, 65, 2),
];

// bound; stores, is cut, waiting; hidden 0, hidden 1
const LINE_CUTS: [LineCutRow; 3] = [
    // the root of the third round, which places hidden 1, is store 14; a line that is cut stays as it was
    // lent
    LineCutRow(13, 13, true, 2, 8, 2),
    LineCutRow(14, 14, true, 2, 8, 9),
    LineCutRow(17, 17, false, 0, 8, 9),
];

// head, map, bytes lent; answer, bitmap bytes
const MAPS: [MapRow; 11] = [
    // slots 0, 1 and 3 have bits 0, 3 and 9
    MapRow(0, 0, 0, 0, 0, 512, 0, 0, 0),
    MapRow(0, 4, 7, 13, 0, 512, 0, 9, 2),
    // 17: a leaf, the root, past the last slot, one entry twice
    MapRow(0, 5, 0, 0, 0, 512, 17, 255, 255),
    MapRow(0, 3, 0, 0, 0, 512, 17, 255, 255),
    MapRow(0, 16, 0, 0, 0, 512, 17, 255, 255),
    MapRow(0, 4, 0, 4, 0, 512, 17, 255, 255),
    // an entry past P
    MapRow(0, 0, 0, 0, 5, 512, 0, 0, 0),
    MapRow(0, 0, 0, 4, 4, 512, 0, 1, 0),
    // 1 to 3, before 17
    MapRow(0, 5, 0, 0, 0, 23, 1, 256, 256),
    MapRow(0, 5, 0, 0, 0, 511, 2, 255, 255),
    MapRow(4, 5, 0, 0, 0, 512, 3, 255, 255),
];

// Answers how many rows of a write with an offer that is cut agree.
pub fn cut_rows(output: &mut Output) -> u32 {
    run_rows(output, &CUTS)
}

// Answers how many rows of a write with a line that is cut agree.
pub fn line_cut_rows(output: &mut Output) -> u32 {
    run_rows(output, &LINE_CUTS)
}

// Answers how many rows of other maps agree.
pub fn map_rows(output: &mut Output) -> u32 {
    run_rows(output, &MAPS)
}

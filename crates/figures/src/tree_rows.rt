// What document 02 says of the tree of the drive with hidden 1 in slot 1 and then hidden 0 in slot 0, worked
// out by hand, and of that drive with other entries. Entries are counted over the whole disk, eight to a
// block: the leaves of slots 0, 1 and 2 are blocks 5, 8 and 11.
use crate::drives::Made::{Five, Fresh, Three};
use crate::trees::Asked::{Check, Entry, Walk};
use crate::trees::TreeRow;
use figure_lines::lines::Put;
use figure_lines::output::Output;
use figure_lines::rows::run_rows;

// how made, entry put, and again, bytes lent, what is asked; answer
const TREES: [TreeRow; 34] = [
    // the root, block 3; the current leaf, slot 0; the stale leaf, slot 1; a leaf's last entry is its owner
    TreeRow(Five, None, None, 512, Entry(24), Some(5)),
    TreeRow(Five, None, None, 512, Entry(40), Some(6)),
    TreeRow(Five, None, None, 512, Entry(41), Some(9)),
    TreeRow(Five, None, None, 512, Entry(47), Some(0)),
    TreeRow(Five, None, None, 512, Entry(64), Some(0)),
    TreeRow(Five, None, None, 512, Entry(65), Some(9)),
    TreeRow(Five, None, None, 512, Entry(71), Some(1)),
    // trees that pass
    TreeRow(Fresh, None, None, 512, Check, Some(0)),
    TreeRow(Five, None, None, 512, Check, Some(0)),
    // an ill-formed entry where none is met: in the stale leaf, and in that of slot 2, stale with owner 0
    TreeRow(Five, Some(Put(64, 5)), None, 512, Check, Some(0)),
    TreeRow(
        Five,
        Some(Put(88, 5)),
        Some(Put(95, 0)),
        512,
        Check,
        Some(0),
    ),
    // refusals 1 to 3: block size 48, a byte less, head 4
    TreeRow(Five, Some(Put(0, 48)), None, 512, Check, Some(1)),
    TreeRow(Five, None, None, 511, Check, Some(2)),
    TreeRow(Five, Some(Put(5, 4)), None, 512, Check, Some(3)),
    // 13: hidden data in the root, a leaf in a leaf
    TreeRow(Five, Some(Put(24, 6)), None, 512, Check, Some(13)),
    TreeRow(Five, Some(Put(41, 8)), None, 512, Check, Some(13)),
    // 14: hidden 2 in slot 2, the root's last entry
    TreeRow(
        Five,
        Some(Put(42, 12)),
        Some(Put(95, 2)),
        512,
        Check,
        Some(14),
    ),
    TreeRow(Five, Some(Put(31, 8)), None, 512, Check, Some(14)),
    // 15: the owner is unmapped, its walk ends elsewhere, it is not below, it is past the tree
    TreeRow(Five, Some(Put(40, 0)), None, 512, Check, Some(15)),
    TreeRow(
        Five,
        Some(Put(40, 0)),
        Some(Put(47, 1)),
        512,
        Check,
        Some(15),
    ),
    TreeRow(Five, Some(Put(41, 12)), None, 512, Check, Some(15)),
    TreeRow(Five, Some(Put(47, 4294967295)), None, 512, Check, Some(15)),
    // two faults at one entry: 13 before 14, 14 before 15
    TreeRow(Five, Some(Put(25, 6)), None, 512, Check, Some(13)),
    TreeRow(Five, Some(Put(25, 8)), None, 512, Check, Some(14)),
    // two faults at two entries: an entry before its node, a node before the next entry
    TreeRow(Five, Some(Put(40, 5)), None, 512, Check, Some(15)),
    TreeRow(
        Five,
        Some(Put(25, 8)),
        Some(Put(41, 12)),
        512,
        Check,
        Some(15),
    ),
    // hidden 0 before it is placed, and with hidden 1, whose leaf it shares
    TreeRow(Fresh, None, None, 512, Walk(0, 1), None),
    TreeRow(Three, None, None, 512, Walk(1, 1), Some(8)),
    TreeRow(Three, None, None, 512, Walk(0, 1), Some(8)),
    // both once they are placed; a tree of height 2 has nodes of level 1 only
    TreeRow(Five, None, None, 512, Walk(0, 1), Some(5)),
    TreeRow(Five, None, None, 512, Walk(0, 2), None),
    TreeRow(Five, None, None, 512, Walk(1, 1), Some(5)),
    TreeRow(Five, None, None, 512, Walk(1, 2), None),
    // the first number of the second leaf, which is not there
    TreeRow(Five, None, None, 512, Walk(7, 1), None),
];

// Answers how many of them agree.
pub fn tree_rows(output: &mut Output) -> u32 {
    run_rows(output, &TREES)
}

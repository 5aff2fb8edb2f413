// The hidden volume's map, a tree (document 01, "The disk"): branches, and the walk from the root down, which
// hands back the nodes that it read (document 02, K7). No other function reads a node's entry to find its
// way.
#![tactic(auto)]

pub mod branches; // where the slots stand, which entry a number takes at each level, well-formed addresses
pub mod nodes; // the nodes below the root that a walk read, by level
pub mod walks; // a hidden number's walk: where it ends, and its nodes
pub mod ends; // whether a walk ended at an address, or at an ill-formed entry

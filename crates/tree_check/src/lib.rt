// The check of the whole hidden tree (document 02, K1): a node goes through its entries, and each entry goes
// on to its node, one level lower. The call has no `requires`: its contract fixes the answer for every input.
#![tactic(auto)]

mod spans; // how many entries a node has, and how many numbers stand below an entry
mod entries; // the three tests of one entry
mod nodes; // nodes and entries, each on to the other
mod trees; // the call

pub use trees::check_tree;

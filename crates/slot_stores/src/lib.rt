// The stores of a slot and of the root, each as a descriptor (document 01, "A round"): block A, then A + 1 to
// A + k and the root as the hidden half's plan has them. Nothing is lent: a descriptor is worked out from
// the geometry and the plan alone, and its contract says which store it means on every disk.
#![tactic(auto)]

pub mod blocks; // the public block, blocks written back, and random blocks
pub mod paths; // a path: its nodes, its data, the root
pub mod slots; // all stores of a slot and the root, by their places

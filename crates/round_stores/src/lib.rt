// The stores of a round, each as a descriptor (document 01, "A round"): those of the slot and the root, then
// the map block and the bitmap's in the last round, then the header. Nothing is lent.
#![tactic(auto)]

pub mod endings; // map, bits and header
pub mod planned; // all stores of a round, by their places

// What the calls answer, in the structs of numbers that C is told (include/pddm.h): each is made of what the
// mapper tells.
#![tactic(auto)]

pub mod drives; // which drive a disk is, and how large a drive is
pub mod finds; // where a block stands, on the drive or among the lent ones
pub mod needs; // what a write takes
pub mod waits; // how long an offer waits
pub mod enters; // what entering a line came to
pub mod writes; // what a write came to, with an offer or without one
pub mod line_writes; // what a write with a line came to
pub mod cuts; // what a write that is cut came to

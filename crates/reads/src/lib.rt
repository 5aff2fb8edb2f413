// The reads of both volumes and their refusals (document 01, "Public numbers and hidden outcomes"). No call
// has a `requires`: each contract fixes what is answered or shown, for every input.
#![tactic(auto)]

pub mod finds; // where the block of a number is, and what a read shows of it
pub mod public; // the public read and its refusals
pub mod hidden; // the hidden read and its refusals

// The calls of a line's owner, by value (document 02, K3): an offer enters, and the hidden read where offers
// wait. No call has a `requires`: each contract fixes what is answered, left or shown, for every input.
#![tactic(auto)]

pub mod enters; // an offer that enters
pub mod finds; // where the block of a hidden number is, where offers wait
pub mod hidden; // the hidden read through a line and its refusals

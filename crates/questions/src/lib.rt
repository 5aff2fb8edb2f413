// What is asked of a disk and changes no byte (document 01, "Public numbers and hidden outcomes"). No call
// has a `requires`: each contract fixes the answer, for every input.
#![tactic(auto)]

pub mod drives; // which drive a disk is, and how large a drive is
pub mod needs; // the rounds, stores and random bytes that a write takes, and its refusals
pub mod waits; // how long an offer waits

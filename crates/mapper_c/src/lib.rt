// The calls of the mapper for C (include/pddm.h): each takes numbers and lent bytes and answers numbers. None
// has a `requires`: each contract fixes the answer and the bytes that the call leaves, for every input.
#![tactic(auto)]

mod formats; // an empty drive
mod drives; // which drive a disk is, and how large a drive is
mod finds; // where the block of a number stands, in either volume
mod line_finds; // where a hidden number's block stands where offers wait
mod line_enters; // an offer that enters a lent line
mod needs; // the buffers that a write takes
mod offers; // the hidden write that is offered, as C lends it
mod writes; // the write, with or without an offer
mod line_writes; // the write with a lent line of offers
mod cuts; // both writes, cut after so many stores
mod waits; // how long an offer waits
mod trees; // the check of the whole hidden tree
mod recoveries; // the bitmap rebuilt from the public map

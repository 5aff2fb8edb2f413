// Recovery (document 02, K5): the bitmap rebuilt from the public map. Refusal 17 is settled before a byte
// changes, in 4,096 bytes of stack.
#![tactic(auto)]

mod entries; // the entries of the map: whether each is 0 or a slot's start, and the mark of one
mod windows; // no two numbers share a place, looked at a window of slots at a time
mod bits; // the bitmap cleared, and marked from the map
mod drives; // refusal 17, and the call

pub use drives::recover;

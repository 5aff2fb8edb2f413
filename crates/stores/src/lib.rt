// Stores: each described before it is made, and made one whole block at a time. `blocks::store_block` is the
// only function by which a write changes disk or list; a descriptor says what is stored by it.
#![tactic(auto)]

pub mod copies; // bytes copied and cleared in a lent buffer
pub mod changes; // one entry or one bit of a block changed
pub mod descriptors; // a store before it is made, and the block that it begins with
pub mod blocks; // the one store function, and the store of a descriptor

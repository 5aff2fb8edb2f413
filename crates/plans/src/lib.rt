// What a round is to do, settled before its slot is stored (document 01, "A round").
#![tactic(auto)]

pub mod states; // how far the turns of a call have come
pub mod hidden_plans; // what the hidden half of a round is to store
pub mod public_plans; // what the public half of a round is to store
pub mod plans; // what a round is to do with its slot

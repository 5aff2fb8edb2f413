// Refusals 4 to 11 of a drive that 1 to 3 do not meet (document 01, "Public numbers and hidden outcomes").
#![tactic(auto)]

pub mod places; // 4 to 6: a public number, the length of its data, its entry of the map
pub mod counts; // 7 to 9: the rounds of a write, its random bytes and its stores
pub mod numbers; // 10 and 11: a hidden number and the length of its data

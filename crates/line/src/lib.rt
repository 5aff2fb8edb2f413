// The line of waiting offers, by value (document 02, K3): what a call works on, loaded from a lent line.
#![tactic(auto)]

pub mod offers; // an offer, and a line of at most 16
pub mod numbers; // where a number stands in a line
pub mod turns; // the offers that count on a drive, in their turn
pub mod changes; // an offer that enters, and those that leave
pub mod waiting; // what waits under a number
pub mod gathered; // a line lent as two runs of numbers

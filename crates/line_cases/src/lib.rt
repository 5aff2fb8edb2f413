// The cases that figures of a line of waiting offers (document 02, K3) are of: a drive, the writes that go
// before, and the line, all said in flat numbers.
#![tactic(auto)]

pub mod offers; // a line of a row, printed and compared
pub mod blocks; // the blocks lent with every line
pub mod cases; // a row's drive, and what the writes before leave of the line
pub mod lents; // what a call leaves in the line that it was handed

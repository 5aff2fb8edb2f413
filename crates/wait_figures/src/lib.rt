// Document 02's figures of how long an offer waits (K12), as rows: what the call tells of a drive, and how
// long the offers of a line wait that writes carry along.
#![tactic(auto)]

mod drives; // the drive of the rows
mod tells; // what the call tells
mod offers; // how long an offer waits that is made with each write
mod carries; // how long the offers of a line wait
pub mod wait_rows;

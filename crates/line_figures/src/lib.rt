// Document 02's figures of a line of waiting offers (K3) as rows, each run on the calls by value and printed
// beside what is expected. A row says how its drive is made, the writes that go before, the line, what is
// asked, and what comes of it, in flat numbers.
#![tactic(auto)]

mod enters; // offers that enter
mod writes; // writes with a line, and reads through it
pub mod line_rows;

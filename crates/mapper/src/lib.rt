// The calls of the mapper (document 01, "Public numbers and hidden outcomes"; document 02, K3). None has a
// `requires`: each contract fixes the answer and the bytes that the call leaves, for every input. Formatting
// stands in `formatting`, what is asked of a drive in `questions`, the reads in `reads`, the check of the
// hidden tree (document 02, K1) in `tree_check`, recovery (K5) in `recovery`, an offer that enters a line and
// the hidden read through it in `line_calls`; the writes are here, and their inner form with a bound on the
// stores (K5), of which the whole write is the one that is not cut.
#![tactic(auto)]

mod cuts; // the write, stopped after so many stores
mod offers; // the hidden write that is offered: its refusal, and its turn
mod within; // the inner form: the write up to a bound, with an offer or without one, or with a line of offers
mod write; // the whole write

pub use cuts::{CutWritten, LineCutWritten, write_cut, write_line_cut};
pub use formatting::format_drive;
pub use layout::refusals::{Refusal, answer_number, refusal_number};
pub use line_calls::enters::enter_line;
pub use line_calls::hidden::{check_hidden_line, hidden_read_line};
pub use offers::HiddenOffer;
pub use questions::drives::{Identified, Size, drive_size, identify};
pub use questions::needs::{Needs, check_write, write_needs};
pub use questions::waits::wait_rounds;
pub use reads::hidden::{check_hidden, hidden_read};
pub use reads::public::{check_public, public_read};
pub use recovery::recover;
pub use tree_check::check_tree;
pub use write::{LineWritten, Outcome, Written, outcome_number, write_block, write_line};

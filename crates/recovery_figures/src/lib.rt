// Document 02's figures of pulled plugs (K5), as rows: a write of three rounds that is cut after so many
// stores and recovered, with an offer and with a line, and recoveries of a drive with other map entries.
#![tactic(auto)]

pub mod listed; // lines of the listing, written on document 01's geometry
mod tells; // what a recovery answers, and what a disk shows
mod cuts; // a write with an offer, cut
mod line_cuts; // a write with a line, cut
mod maps; // recoveries of other maps
pub mod recovery_rows;

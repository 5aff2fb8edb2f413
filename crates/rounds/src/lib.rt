// A round, and the rounds of a write (document 01, "A round"). What a round is to store is planned before its
// first store; then one loop makes its stores, each described by `round_stores` and made by `stores`. A
// block is taken from the disk just before it is stored, which is proved to be the same
// (docs/DECISIONS.md, 51). A bound on the stores of a write cuts it in any round (document 02, K5): those
// before it are made and no others.
#![tactic(auto)]

pub mod rounds; // one round
pub mod runs; // the rounds of a write

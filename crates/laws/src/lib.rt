// Definitions and laws about lists, numbers and bits, for every crate above. No code.

#![tactic(auto)]

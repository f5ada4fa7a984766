// For each tensor an address word, or how far one moves.
#![tactic(auto)]

pub mod offsets;

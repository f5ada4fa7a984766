// The letter of each output index, put at its place in D.
#![tactic(auto)]

pub mod letters;

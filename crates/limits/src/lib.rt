// The limits of the rules: one shared set of named values.
#![tactic(auto)]

pub mod limits;

// The direct sum: D filled along its labels, each word with the sum over the depth group.
#![tactic(auto)]

pub mod fill;

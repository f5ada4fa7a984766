// Labels that step together in every tensor are folded into one.
#![tactic(auto)]

pub mod fold;

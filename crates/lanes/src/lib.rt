// Lanes: products added to sums that stand side by side.
#![tactic(auto)]

pub mod lanes;

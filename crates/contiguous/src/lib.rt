// Sums added to words of D that stand one after the other, with the factors that are not 1.
#![tactic(auto)]

pub mod contiguous;

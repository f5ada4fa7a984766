// The delay between two recordings: the scores of all lags are one contraction by the plain engine.
#![tactic(auto)]

pub mod call;
pub mod scoring;

// Sums of A × B along a run of places.
#![tactic(auto)]

pub mod dot;

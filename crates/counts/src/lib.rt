// How far a count of a group goes in each tensor, and the runs of its first label.
#![tactic(auto)]

pub mod counts;
pub mod first_label;

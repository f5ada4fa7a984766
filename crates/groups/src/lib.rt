// The labels of a contraction in four groups.
#![tactic(auto)]

pub mod groups;

// The plan of a contraction that questions 1 to 9 accept: its groups, folded, and where each tensor begins.
#![tactic(auto)]

pub mod plan;

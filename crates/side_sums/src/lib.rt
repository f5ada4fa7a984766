// The sums of a block of outputs that stand a step apart, formed side by side.
#![tactic(auto)]

pub mod side;

// The record of a contraction, and the axes of its tensors.
#![tactic(auto)]

pub mod contraction;
pub mod operands;

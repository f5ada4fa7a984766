// The direct sum of a block of outputs: up to 64 of them are summed side by side.
#![tactic(auto)]

pub mod output_block;

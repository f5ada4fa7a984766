// The kernel: the sums of one column of a packed tile.
#![tactic(auto)]

pub mod kernel;

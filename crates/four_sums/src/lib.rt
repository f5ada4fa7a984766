// The direct sums of four runs of outputs at a time that share what is read of A.
#![tactic(auto)]

pub mod four_sums;

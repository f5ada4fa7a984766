// The words of D of four runs of outputs at a time that share what is read of A: up to 64 outputs of each are summed side by side.
#![tactic(auto)]

pub mod four_runs;

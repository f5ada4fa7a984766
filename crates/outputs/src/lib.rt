// The direct sum of a run of outputs: block by block, or one output after the other where that suits.
#![tactic(auto)]

pub mod outputs;

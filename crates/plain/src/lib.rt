// The plain engine: the questions, then the direct sum.
#![tactic(auto)]

pub mod call;

// What becomes of an output's word: alpha × its sum + beta × what it starts from, for one output and for a block of them.
#![tactic(auto)]

pub mod output;

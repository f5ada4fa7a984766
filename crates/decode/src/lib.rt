// A job's layouts, words and contraction, taken from its file's bytes.
#![tactic(auto)]

pub mod decode;

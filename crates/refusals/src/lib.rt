// The questions that can refuse a call or a job file, and their numbers.
#![tactic(auto)]

pub mod refusal;

// A tensor's two records in a job file: its words, and both one after the other.
#![tactic(auto)]

pub mod tensor_records;

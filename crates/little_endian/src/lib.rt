// Little-endian numbers in a job file's bytes.
#![tactic(auto)]

pub mod numbers;

// A job file, read front to back.
#![tactic(auto)]

pub mod reader;

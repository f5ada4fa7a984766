// What a job file's records are read as: a record's kind, and a tensor's layout.
#![tactic(auto)]

pub mod records;

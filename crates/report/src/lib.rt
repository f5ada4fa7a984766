// The text that answers a job.
#![tactic(auto)]

pub mod report;

// The job program over lent slices: a job file's bytes to the text that answers it. Nothing is read or printed here.
#![tactic(auto)]

pub mod run;

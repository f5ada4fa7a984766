// The words of D along a run of output counts, each with the sum over the depth group.
#![tactic(auto)]

pub mod output_run;

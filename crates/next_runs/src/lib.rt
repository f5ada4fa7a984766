// The next runs of outputs, one at a time, or four where these share what is read of A.
#![tactic(auto)]

pub mod next_runs;

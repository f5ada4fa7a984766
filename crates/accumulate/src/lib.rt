// Sums added to D's words: of one row, and of rows whose words are a step apart or one after the other.
#![tactic(auto)]

pub mod accumulate;

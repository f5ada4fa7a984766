// One tile call on lent slices, and the text that answers it.
#![tactic(auto)]

pub mod answer;

// The stores: a column's sums are added to D's words.
#![tactic(auto)]

pub mod store;

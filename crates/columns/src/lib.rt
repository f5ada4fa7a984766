// Columns of a tile: one is stored, four and eight are multiplied and stored.
#![tactic(auto)]

pub mod column_stores;

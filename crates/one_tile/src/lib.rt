// One tile: packed and multiplied, or multiplied without packing where it is thin.
#![tactic(auto)]

pub mod tile;

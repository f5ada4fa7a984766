// Tiles one after the other.
#![tactic(auto)]

pub mod run_tiles;

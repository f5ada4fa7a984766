// How counts are cut into tiles: tile numbers, which panels have reached a word, and the state of an output index.
#![tactic(auto)]

pub mod grid;

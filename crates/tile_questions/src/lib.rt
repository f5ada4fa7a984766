// Questions 10 to 13, about the tiles of a contraction.
#![tactic(auto)]

pub mod tile_refusals;

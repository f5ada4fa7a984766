// The blocks of a tile: where its rows, its columns and its depth counts lie in a tensor.
#![tactic(auto)]

pub mod plan_grid;
pub mod planned_tile;
pub mod tile_places;

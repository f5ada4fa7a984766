// The record `GO` of a job file: the factors, the sizes of a tile, the tiles done and the budget.
#![tactic(auto)]

pub mod go;

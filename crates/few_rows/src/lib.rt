// Tiles of up to four rows: their sums are formed along the columns.
#![tactic(auto)]

pub mod few;

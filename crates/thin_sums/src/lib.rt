// The sums of one line of a tile, a row or a column, along the tile's other side: read in the tensors themselves, without packing.
#![tactic(auto)]

pub mod line_sums;

// The lines of a thin tile: the few rows or columns of its short side, each multiplied along its long side without packing.
#![tactic(auto)]

pub mod thin_lines;

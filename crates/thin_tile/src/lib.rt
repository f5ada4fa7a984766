// A thin tile, of up to four rows or columns, multiplied without packing.
#![tactic(auto)]

pub mod thin;

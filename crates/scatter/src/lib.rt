// The offsets of a group's counts in each tensor, as blocks of rows or columns.
#![tactic(auto)]

pub mod blocks;

// The copy: a tile's words of C go to the places of the same tile of D.
#![tactic(auto)]

pub mod copy;

// The packed blocks of a tile: A's and B's in the work slice, and zeros past their edges after the last tile of a call.
#![tactic(auto)]

pub mod packs;

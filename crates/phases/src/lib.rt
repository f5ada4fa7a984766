// The phases of a tile that write D: where C is named its words are put in D before the first panel, and the product of the packed blocks goes to D.
#![tactic(auto)]

pub mod phases;

// The tiled engine: a contraction run tile by tile, and the state of an output index between calls.
#![tactic(auto)]

pub mod call;

// Packing: a block of a tensor goes into the work slice stretch by stretch, a band of lanes at a time; zeros go past its edge.
#![tactic(auto)]

pub mod pack;
pub mod pad;

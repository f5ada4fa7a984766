// A block of offsets, even or scattered, and the places that it addresses.
#![tactic(auto)]

pub mod block;
pub mod place;

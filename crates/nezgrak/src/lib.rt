// The calls for C and Rust: a layout is a pointer to its 28 words, a slice a pointer and then a length. Each returns 0, or the number of the question that
// refused.
#![tactic(auto)]

pub mod delay_call;
pub mod plain_call;
pub mod state_call;
pub mod tile_call;
pub mod with_c;

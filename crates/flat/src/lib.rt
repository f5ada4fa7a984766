// A layout as the calls for C and Rust take it, in 28 words, and the contraction of three, or with C of four.
#![tactic(auto)]

pub mod contraction_of;
pub mod layout_words;

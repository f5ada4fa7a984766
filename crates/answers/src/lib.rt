// What the calls answer, and each answer as the numbers that the calls for C and Rust return and set.
#![tactic(auto)]

pub mod delay_answer;
pub mod state_answer;
pub mod status;
pub mod tile_answer;

// The delay between two recordings by its rules: questions 31 and 32, and the lag with the greatest score.
#![tactic(auto)]

pub mod best_lag;
pub mod delay_questions;

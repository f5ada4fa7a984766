// Is a tensor valid by itself? Questions 1 to 5.
#![tactic(auto)]

pub mod letter;
pub mod tensor_questions;

// Questions 1 to 9 about a contraction, in their order.
#![tactic(auto)]

pub mod questions;

// The labels of all tensors together: do their extents agree, has C the letters of D, and how many points do they span? Questions 6, 30 and 7.
#![tactic(auto)]

pub mod label_questions;

// The words of a stretch of offsets, packed in lanes side by side.
#![tactic(auto)]

pub mod stretch;

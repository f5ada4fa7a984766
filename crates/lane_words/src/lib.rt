// The words of a stretch of offsets, packed in one lane.
#![tactic(auto)]

pub mod lane_words;

// The labels of axes: their letters as sets, their extents and their strides.
#![tactic(auto)]

pub mod labelled;
pub mod labels;
pub mod letter_sets;

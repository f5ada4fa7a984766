// The letter of each word of D's slice: old, part, final, or outside the layout.
#![tactic(auto)]

pub mod after;

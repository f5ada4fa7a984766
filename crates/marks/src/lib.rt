// A record's kind by its two-byte mark.
#![tactic(auto)]

pub mod marks;

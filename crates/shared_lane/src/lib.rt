// A lane that four blocks of sums share.
#![tactic(auto)]

pub mod shared_lane;

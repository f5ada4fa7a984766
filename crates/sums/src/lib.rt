// Groups walked in runs of their first label, and A × B summed along the depth group.
#![tactic(auto)]

pub mod sum;
pub mod tabled;
pub mod walk;

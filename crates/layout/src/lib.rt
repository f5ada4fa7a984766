// A tensor's layout as it is handed in, and lists of axes.
#![tactic(auto)]

pub mod axes;
pub mod layout;

// The odometer of a list of labels: from a count to the next, and how far each tensor's address moves.
#![tactic(auto)]

pub mod odometer;

// Has a tensor entries, and do they lie inside their slice? Question 8. The definitions of question 9 stand here too; the crate `apart` has its code.
#![tactic(auto)]

pub mod inside;

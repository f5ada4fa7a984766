// Do a tensor's entries lie apart from each other, if it has any? Question 9.
#![tactic(auto)]

pub mod apart;

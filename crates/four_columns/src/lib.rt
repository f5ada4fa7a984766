// The kernel for four columns that stand side by side.
#![tactic(auto)]

pub mod columns;

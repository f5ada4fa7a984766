// The product of two packed blocks goes to D column by column.
#![tactic(auto)]

pub mod multiply;

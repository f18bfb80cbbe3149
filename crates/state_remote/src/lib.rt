// The remote/local state in code.
#![tactic(auto)]

pub mod remote; // its table, a column to a function

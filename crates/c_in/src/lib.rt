// The polls, on the unit in bytes: each is decided over the state, and writes no more than the parts that it sets.
#![tactic(auto)]

pub mod interrupt; // of Interrupt-IN
pub mod poll; // of Bulk-IN

// The parts of a unit in bytes: each is read from its place, and put there.
#![tactic(auto)]

pub mod put; // a part put in its place
pub mod read; // a part from its place

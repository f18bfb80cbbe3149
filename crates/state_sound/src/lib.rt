// Whether a state is sound.
#![tactic(auto)]

pub mod sound; // part by part

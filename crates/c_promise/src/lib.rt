// Calls on the unit in bytes: what they share.
#![tactic(auto)]

pub mod answer; // what a call answers, made
pub mod make; // a unit made
pub mod state; // the state of a sound one
pub mod types; // what a call answers

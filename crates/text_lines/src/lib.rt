// Lines of text: what they ask for. Nothing here knows a unit.
#![tactic(auto)]

pub mod asked; // what a line asks for
pub mod given; // what a word gives, or why it cannot be read
pub mod names; // the names of the calls

// The small state by value, a part at a time.
#![tactic(auto)]

pub mod given; // why a call is refused, or that it is done, with no bytes
pub mod parts; // one part set, and tests on one

// The answers of `replay`, as lines: to calls that were played, and to lines that cannot be read.
#![tactic(auto)]

pub mod answer; // a number, what is told, and the bytes of a lent buffer
pub mod overview; // the answers to `state` and `more`
pub mod wrong; // the answers to lines that cannot be read

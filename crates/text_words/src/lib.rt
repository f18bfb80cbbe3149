// Words of a line, and the numbers and bytes in them. Nothing here knows a unit.
#![tactic(auto)]

pub mod bytes; // bytes that a word was read as
pub mod numbers; // numbers and bytes in words
pub mod seek; // the first byte of a kind
pub mod words; // a line's words

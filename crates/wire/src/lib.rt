// Bytes and what they say, with no unit in sight: numbers, headers and setup packets, as definitions with their laws.
#![tactic(auto)]

pub mod types; // what a header and a setup packet can say

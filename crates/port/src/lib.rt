// The port as document 01 has it: definitions and their laws. The code that meets them stands in the crates above.
#![tactic(auto)]

pub mod types; // the parts of a unit but for its two stores, and what is decided over them

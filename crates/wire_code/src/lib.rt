// Numbers, headers and copies in code.
#![tactic(auto)]

pub mod copies; // bytes of one slice into another
pub mod header; // a Bulk-OUT header: what it says, or its first fault; a Bulk-IN header: its bytes
pub mod numbers; // numbers of two bytes and of four

// Interrupt-IN in code: the status byte, and the packet that tells of it.
#![tactic(auto)]

pub mod part; // a status byte set or read, a packet polled
pub mod poll; // an Interrupt-IN poll

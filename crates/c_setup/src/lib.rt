// A setup packet, on the unit in bytes: it is decided over the state, and its answer goes into the control buffer.
#![tactic(auto)]

pub mod setup;

// A Bulk-OUT packet, on the unit in bytes: it is decided over the state, and writes no more than the parts that it sets.
#![tactic(auto)]

pub mod packet;

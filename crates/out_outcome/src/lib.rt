// What a Bulk-OUT packet comes to: each gives what its definition gives.
#![tactic(auto)]

pub mod outcome; // by the state and the bytes of the packet

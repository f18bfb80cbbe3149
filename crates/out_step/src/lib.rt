// What a Bulk-OUT packet leaves, in code: decided over the small state by value, and its data put into the message store.
#![tactic(auto)]

pub mod out; // a Bulk-OUT packet
pub mod sides; // what data and headers make of an endpoint's side
pub mod store; // a packet with its data put into a store

// The two calls of every packet, on a unit that is altered where it stands.
#![tactic(auto)]

pub mod packet; // a Bulk-OUT packet
pub mod poll; // a Bulk-IN poll
pub mod types; // what they hand back

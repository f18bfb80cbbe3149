// Bulk-IN in code: decided over the small state by value, and read from the reply store.
#![tactic(auto)]

pub mod poll; // a Bulk-IN poll
pub mod types; // what a poll that sends comes to

// Setup packets in code: what each comes to, what it is answered, and what that does to the state.
#![tactic(auto)]

pub mod effects; // what an answered row does
pub mod rows; // what each row answers
pub mod serve; // what a setup packet comes to
pub mod types; // how an answered row is handed on

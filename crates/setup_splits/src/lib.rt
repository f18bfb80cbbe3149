// The aborts and the clear in code, and the answers of setup packets by their bytes.
#![tactic(auto)]

pub mod aborts; // INITIATE_ABORT and CHECK_ABORT
pub mod clear; // INITIATE_CLEAR and CHECK_CLEAR_STATUS
pub mod reacts; // answers by their bytes
pub mod types; // how an answer is handed on

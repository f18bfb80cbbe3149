// The thermostat's calls in code, decided over the small state by value: a take, an offer, the status byte and the front panel.
#![tactic(auto)]

pub mod offer; // a reply is stored
pub mod settings; // the status byte, and local control asked for at the front panel
pub mod take; // a message is handed over

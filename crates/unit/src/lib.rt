// The unit and its calls.
#![tactic(auto)]

pub mod apart; // the state of a unit, and a state put back
pub mod interrupt; // an Interrupt-IN poll
pub mod message; // take
pub mod packet; // a Bulk-OUT packet
pub mod poll; // a Bulk-IN poll
pub mod power; // power-on and bus reset
pub mod reply; // offer
pub mod setup; // a setup packet
pub mod suspend; // suspend
pub mod thermostat; // the status byte, the front panel
pub mod types; // the unit, and what its calls hand back

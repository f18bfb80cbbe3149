// The state of a unit, and a state put back.
ghost use Rattle.std.specs.Prelude.{◌≡◌};
ghost use Rattle.port.specs.Device.{with_state};
ghost use Rattle.unit.specs.Promise.{device_of, unit_of};

use crate::types::{Done, Told, Unit};
use port::types::{Given, State};
use rules::verdict::Verdict;

impl Unit {
    // What a call is decided by.
    pub fn state(self) -> State
        ensures { result ≡ (device_of self).state }
    {
        State {
            small: self.small,
            split: self.split,
            remote: self.remote,
        }
    }

    // The unit with that state.
    pub fn with_state(self, st: State) -> Unit
        ensures { result ≡ unit_of (with_state (device_of self) st) }
    {
        Unit {
            small: st.small,
            split: st.split,
            remote: st.remote,
            ..self
        }
    }

    pub fn done(self, st: State, verdict: Verdict) -> Done
        ensures { result ≡ record { unit = unit_of (with_state (device_of self) st); verdict = verdict } }
    {
        Done {
            unit: self.with_state(st),
            verdict,
        }
    }

    pub fn told(self, given: Given) -> Told
        ensures { result ≡ record { unit = unit_of (with_state (device_of self) given.state); verdict = given.verdict; len = given.len } }
    {
        Told {
            unit: self.with_state(given.state),
            verdict: given.verdict,
            len: given.len,
        }
    }
}

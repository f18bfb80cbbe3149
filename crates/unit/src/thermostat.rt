// The status byte and the front panel.
ghost use Rattle.std.specs.Prelude.{◌≡◌, ℕ};
ghost use Rattle.port.specs.Step.{set_status, front_panel, quiet, step};
ghost use Rattle.unit.specs.Promise.{device_of, done_of};

use crate::types::{Done, Unit};
use thermostat_step::settings::{returned, status_set};

impl Unit {
    // The status byte; with bit 6 on it asks the host for service.
    pub fn set_status(self, status: u8) -> Done
        ensures { result ≡ done_of (step (device_of self) (quiet (set_status status))) }
    {
        let given = status_set(self.state(), status);
        self.done(given.state, given.verdict)
    }

    // The front panel asks for local control.
    pub fn panel(self) -> Done
        ensures { result ≡ done_of (step (device_of self) (quiet front_panel)) }
    {
        let given = returned(self.state());
        self.done(given.state, given.verdict)
    }
}

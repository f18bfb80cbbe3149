// Suspend.
ghost use Rattle.std.specs.Prelude.{◌≡◌};
ghost use Rattle.port.specs.Step.{bus_suspend, quiet, step};
ghost use Rattle.unit.specs.Promise.{device_of, done_of};

use crate::types::{Done, Unit};
use bus_step::suspended;

impl Unit {
    // The bus is suspended.
    pub fn suspend(self) -> Done
        ensures { result ≡ done_of (step (device_of self) (quiet bus_suspend)) }
    {
        let given = suspended(self.state());
        self.done(given.state, given.verdict)
    }
}

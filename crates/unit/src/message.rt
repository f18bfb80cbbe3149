// A message is handed over.
ghost use Rattle.std.specs.Prelude.{◌≡◌, length};
ghost use Rattle.port.specs.Step.{take_into, step};
ghost use Rattle.unit.specs.Promise.{device_of, Tells};

use crate::types::{Told, Unit};
use thermostat_step::take::take_step;

impl Unit {
    // The message, if one is ready, into the lent buffer `b`; the next one can come.
    pub fn take(self, b: &mut [u8]) -> Told
        ensures { Tells (step (device_of self) (take_into (length b.old))) b.old b.new result }
    {
        let st = self.state();
        let given = take_step(&self.message, st, b);
        self.told(given)
    }
}

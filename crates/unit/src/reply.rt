// A reply is offered.
ghost use Rattle.std.specs.Prelude.{◌≡◌};
ghost use Rattle.port.specs.Step.{offer_reply, quiet, step};
ghost use Rattle.unit.specs.Promise.{device_of, done_of};

use crate::types::{Done, Unit};
use thermostat_step::offer::offer_step;

impl Unit {
    // A reply, which the host's next requests fetch.
    pub fn offer(mut self, bytes: &[u8]) -> Done
        ensures { result ≡ done_of (step (device_of self) (quiet (offer_reply bytes.now))) }
    {
        let st = self.state();
        let plan = offer_step(&mut self.reply, st, bytes);
        self.done(plan.state, plan.verdict)
    }
}

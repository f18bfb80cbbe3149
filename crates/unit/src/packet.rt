// A Bulk-OUT packet.
ghost use Rattle.std.specs.Prelude.{◌≡◌};
ghost use Rattle.port.specs.Step.{out_packet, step};
ghost use Rattle.unit.specs.Promise.{device_of, done_of};

use crate::types::{Done, Unit};
use out_step::store::packet_step;

impl Unit {
    // A Bulk-OUT packet.
    pub fn bulk_out(mut self, s: &[u8]) -> Done
        ensures { result ≡ done_of (step (device_of self) (out_packet s.now)) }
    {
        let st = self.state();
        let plan = packet_step(&mut self.message, st, s);
        self.done(plan.state, plan.verdict)
    }
}

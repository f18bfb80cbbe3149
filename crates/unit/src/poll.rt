// A Bulk-IN poll.
ghost use Rattle.std.specs.Prelude.{◌≡◌, length};
ghost use Rattle.port.specs.Step.{in_poll, quiet, step};
ghost use Rattle.unit.specs.Promise.{device_of, Tells};

use crate::types::{Told, Unit};
use in_step::poll::poll_step;

impl Unit {
    // A poll; its packet goes into the lent buffer `b`.
    pub fn bulk_in(self, b: &mut [u8]) -> Told
        ensures { Tells (step (device_of self) (quiet (in_poll (length b.old)))) b.old b.new result }
    {
        let st = self.state();
        let given = poll_step(&self.reply, st, b);
        self.told(given)
    }
}

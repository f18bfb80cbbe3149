// An Interrupt-IN poll.
ghost use Rattle.std.specs.Prelude.{◌≡◌, length};
ghost use Rattle.port.specs.Step.{interrupt_poll, quiet, step};
ghost use Rattle.unit.specs.Promise.{device_of, Tells};

use crate::types::{Told, Unit};
use interrupt_step::poll::interrupt_step;

impl Unit {
    // A poll; the packet that waits, of two bytes, goes into the lent buffer `b`.
    pub fn interrupt_in(self, b: &mut [u8]) -> Told
        ensures { Tells (step (device_of self) (quiet (interrupt_poll (length b.old)))) b.old b.new result }
    {
        let given = interrupt_step(self.state(), b);
        self.told(given)
    }
}

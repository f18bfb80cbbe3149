// A setup packet.
ghost use Rattle.std.specs.Prelude.{◌≡◌, length};
ghost use Rattle.port.specs.Step.{setup_of, step};
ghost use Rattle.unit.specs.Promise.{device_of, Tells};

use crate::types::{Told, Unit};
use rules::DONE;
use rules::verdict::{Verdict, only};
use setup_step::serve::{decided, row_step};
use wire::types::Setup;

impl Unit {
    // A setup packet; its answer goes into the control buffer `b`.
    pub fn setup(self, s: &[u8], b: &mut [u8]) -> Told
        ensures { Tells (step (device_of self) (setup_of s.now (length b.old))) b.old b.new result }
    {
        let st = self.state();
        match decided(st, s, b.len()) {
            Err(refusal) => Told {
                unit: self,
                verdict: Verdict::from(refusal),
                len: 0,
            },
            Ok(Setup::Configure { value }) => Told {
                unit: Unit::made(st.small.port.setting, value),
                verdict: only(DONE),
                len: 0,
            },
            Ok(Setup::Asks { row }) => self.told(row_step(st, row, b)),
        }
    }
}

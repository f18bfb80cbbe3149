// Power-on and bus reset: a unit with nothing but its setting.
ghost use Rattle.std.specs.Prelude.{◌≡◌, ℕ};
ghost use Rattle.port.specs.Device.{made, power_on};
ghost use Rattle.port.specs.Step.{bus_reset, step};
ghost use Rattle.unit.specs.Promise.{device_of, unit_of, done_of};

use crate::types::{Done, Unit};
use port::types::{FULL_SPEED, HIGH_SPEED, STORE, Setting};
use rules::DONE;
use rules::refusal::Refusal;
use rules::verdict::{Verdict, only};
use state_parts::parts::fresh;
use state_sound::sound::{is_size, sound};
use wire::types::{BULK_IN, BULK_OUT, INTERRUPT_IN};

impl Unit {
    // Bytes that a store holds.
    pub const STORE: u16 = STORE;

    // The endpoints, by their addresses.
    pub const BULK_OUT: u8 = BULK_OUT;

    pub const BULK_IN: u8 = BULK_IN;

    pub const INTERRUPT_IN: u8 = INTERRUPT_IN;

    // The packet sizes that there are.
    pub const FULL_SPEED: u16 = FULL_SPEED;

    pub const HIGH_SPEED: u16 = HIGH_SPEED;

    // Any size but those two is answered 3, with a unit of 64.
    pub fn new(setting: Setting) -> Done
        ensures { result ≡ done_of (power_on setting) }
    {
        if is_size(setting.packet) {
            return Done {
                unit: Unit::made(setting, 0),
                verdict: only(DONE),
            };
        }
        let least = Setting {
            packet: Unit::FULL_SPEED,
        };
        Done {
            unit: Unit::made(least, 0),
            verdict: Verdict::from(Refusal::WrongSize),
        }
    }

    // The bus is reset: what SET_CONFIGURATION 0 does.
    pub fn bus_reset(self) -> Done
        ensures { result ≡ done_of (step (device_of self) bus_reset) }
    {
        let st = self.state();
        if sound(st) {
            return Done {
                unit: Unit::made(st.small.port.setting, 0),
                verdict: only(DONE),
            };
        }
        Done {
            unit: self,
            verdict: Verdict::from(Refusal::Unsound),
        }
    }

    // A unit with nothing stored, open, halted or in progress.
    pub fn made(setting: Setting, configured: u8) -> Unit
        ensures { result ≡ unit_of (made setting configured) }
    {
        let st = fresh(setting, configured);
        Unit {
            message: [0; 1024],
            reply: [0; 1024],
            small: st.small,
            split: st.split,
            remote: st.remote,
        }
    }
}

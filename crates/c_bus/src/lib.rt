// Power-on, and the bus's calls, on the unit in bytes.
#![tactic(auto)]

ghost use Rattle.port.specs.Device.{power_on};
ghost use Rattle.port.specs.Step.{quiet, bus_reset, bus_suspend};
ghost use Rattle.c_promise.specs.Promise.{result_bytes, on_bytes, Returns};

use c_bytes::places::UNIT;
use c_parts::put::put;
use c_promise::answer::{done, refused};
use c_promise::make::make;
use c_promise::state::sound_state;
use c_promise::types::TmcAnswer;
use port::types::{FULL_SPEED, Remote, Setting};
use rules::refusal::Refusal;
use state_parts::parts::with_ren;
use state_sound::sound::is_size;

pub fn power_on(u: &mut [u8; UNIT], packet: u16) -> TmcAnswer
    ensures { Returns (result_bytes (power_on (record { packet = packet }))) u.new result }
{
    if is_size(packet) {
        make(u, Setting { packet }, 0);
        return done();
    }
    make(u, Setting { packet: FULL_SPEED }, 0);
    refused(Refusal::WrongSize)
}

pub fn bus_reset(u: &mut [u8; UNIT]) -> TmcAnswer
    ensures { Returns (on_bytes u.old bus_reset) u.new result }
{
    match sound_state(u) {
        Ok(st) => {
            make(u, st.small.port.setting, 0);
            done()
        }
        Err(refusal) => refused(refusal),
    }
}

pub fn suspend(u: &mut [u8; UNIT]) -> TmcAnswer
    ensures { Returns (on_bytes u.old (quiet bus_suspend)) u.new result }
{
    match sound_state(u) {
        Ok(st) => {
            put(u, with_ren(st.small.port, 0));
            put(u, Remote::Locs);
            done()
        }
        Err(refusal) => refused(refusal),
    }
}

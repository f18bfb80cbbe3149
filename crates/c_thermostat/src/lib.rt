// The thermostat's calls, on the unit in bytes: each is decided over the state, and writes no more than the part that it sets.
#![tactic(auto)]

ghost use Rattle.std.specs.Prelude.{◌≡◌, length};
ghost use Rattle.port.specs.Calls.{thermostat_rules, take_rules, offer_rules};
ghost use Rattle.port.specs.Step.{quiet, take_into, offer_reply, set_status, front_panel};
ghost use Rattle.c_bytes.specs.Layout.{state_in};
ghost use Rattle.c_promise.specs.Promise.{IsGate, on_bytes, Returns, Fills};

use c_bytes::places::{REPLY_AT, UNIT};
use c_parts::put::put;
use c_parts::read::{out_of, part_of};
use c_promise::answer::{done, refused};
use c_promise::state::sound_state;
use c_promise::types::TmcAnswer;
use interrupt_step::part::status_held;
use port::types::{InReply, InterruptIn, Remote};
use rules::DONE;
use rules::refusal::Refusal;
use rules::verdict::only;
use state_parts::parts::no_message;
use thermostat_step::offer::offer_gate;
use thermostat_step::settings::thermostat_gate;
use thermostat_step::take::take_gate;
use wire_code::copies::copy_in;

// The first rule that applies to a take into `room` bytes refuses it.
fn taking(u: &[u8; UNIT], room: usize) -> Result<(), Refusal>
    ensures { IsGate u.now (take_rules (state_in u.now) room) result }
{
    take_gate(sound_state(u)?, room)
}

pub fn take(u: &mut [u8; UNIT], b: &mut [u8]) -> TmcAnswer
    ensures { Fills (on_bytes u.old (take_into (length b.old))) b.old b.new u.new result }
{
    if let Err(refusal) = taking(u, b.len()) {
        return refused(refusal);
    }
    let len = usize::from(out_of(u).message.held);
    copy_in(b, 0, u, 0, len);
    put(u, no_message());
    TmcAnswer {
        verdict: only(DONE),
        len,
    }
}

// The first rule that applies to an offer of `n` bytes refuses it.
fn offering(u: &[u8; UNIT], n: usize) -> Result<(), Refusal>
    ensures { IsGate u.now (offer_rules (state_in u.now) n) result }
{
    offer_gate(sound_state(u)?, n)
}

pub fn offer(u: &mut [u8; UNIT], bytes: &[u8]) -> TmcAnswer
    ensures { Returns (on_bytes u.old (quiet (offer_reply bytes.now))) u.new result }
{
    let n = bytes.len();
    if let Err(refusal) = offering(u, n) {
        return refused(refusal);
    }
    copy_in(u, REPLY_AT, bytes, 0, n);
    put(
        u,
        InReply {
            at: 0,
            unsent: n as u16,
        },
    );
    done()
}

// The first rule that applies to the calls below refuses them.
fn setting(u: &[u8; UNIT]) -> Result<(), Refusal>
    ensures { IsGate u.now (thermostat_rules (state_in u.now)) result }
{
    thermostat_gate(sound_state(u)?)
}

pub fn set_status(u: &mut [u8; UNIT], status: u8) -> TmcAnswer
    ensures { Returns (on_bytes u.old (quiet (set_status status))) u.new result }
{
    if let Err(refusal) = setting(u) {
        return refused(refusal);
    }
    let i: InterruptIn = part_of(u);
    put(u, status_held(i, status));
    done()
}

pub fn panel(u: &mut [u8; UNIT]) -> TmcAnswer
    ensures { Returns (on_bytes u.old (quiet front_panel)) u.new result }
{
    if let Err(refusal) = setting(u) {
        return refused(refusal);
    }
    let r: Remote = part_of(u);
    match r {
        Remote::Rems => {
            put(u, Remote::Locs);
            done()
        }
        Remote::Locs | Remote::Lwls | Remote::Rwls => done(),
    }
}

// An Interrupt-IN poll, on the unit in bytes.
ghost use Rattle.std.specs.Prelude.{◌≡◌, ℕ, length};
ghost use Rattle.port.specs.Interrupt.{interrupt_rules};
ghost use Rattle.port.specs.Step.{quiet, interrupt_poll};
ghost use Rattle.c_bytes.specs.Layout.{state_in};
ghost use Rattle.c_promise.specs.Promise.{IsGate, on_bytes, Fills};

use c_bytes::places::UNIT;
use c_parts::put::put;
use c_parts::read::part_of;
use c_promise::answer::refused;
use c_promise::state::sound_state;
use c_promise::types::TmcAnswer;
use interrupt_step::part::polled;
use interrupt_step::poll::{interrupt_gate, write_notify};
use port::types::InterruptIn;
use rules::DONE;
use rules::refusal::Refusal;
use rules::verdict::only;

// The first rule that applies to a poll into `room` bytes refuses it.
fn gate(u: &[u8; UNIT], room: usize) -> Result<(), Refusal>
    ensures { IsGate u.now (interrupt_rules (state_in u.now) room) result }
{
    interrupt_gate(sound_state(u)?, room)
}

pub fn interrupt_in(u: &mut [u8; UNIT], b: &mut [u8]) -> TmcAnswer
    ensures { Fills (on_bytes u.old (quiet (interrupt_poll (length b.old)))) b.old b.new u.new result }
{
    if let Err(refusal) = gate(u, b.len()) {
        return refused(refusal);
    }
    let i: InterruptIn = part_of(u);
    write_notify(b, i.waiting);
    put(u, polled(i));
    TmcAnswer {
        verdict: only(DONE),
        len: 2,
    }
}

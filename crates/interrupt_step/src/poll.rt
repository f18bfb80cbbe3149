// An Interrupt-IN poll: decided over the state; its packet has two bytes.
ghost use Rattle.std.specs.Prelude.{◌≡◌, ℕ, ◌≤◌, length};
ghost use Rattle.rules.specs.Choice.{pick, gate};
ghost use Rattle.rules.specs.declared.refusal.Refusal.TheVariants.{Unsound};
ghost use Rattle.wire.specs.Bytes.{into};
ghost use Rattle.port.specs.Sound.{sound};
ghost use Rattle.port.specs.Answer.{refuse};
ghost use Rattle.port.specs.Interrupt.{interrupt_rules, notify_bytes, poll_interrupt};
ghost use Rattle.port.specs.Given.{Hands};

use crate::part::polled;
use port::types::{Given, Notify, State};
use rules::DONE;
use rules::refusal::Refusal;
use rules::verdict::only;
use state_parts::given::refused;
use state_parts::parts::with_interrupt;
use state_sound::sound::{is_waiting, sound};

// The length of a packet.
const NOTIFY: usize = 2;

// The first of 2 to 5 that applies to a poll into a buffer of `room` bytes refuses it.
#[tactic(auto, using(rules::proofs::Choice::picks))]
pub fn interrupt_gate(st: State, room: usize) -> Result<(), Refusal>
    ensures { result ≡ gate (interrupt_rules st room) }
{
    let i = st.small.interrupt;
    if st.small.port.configured != 1 {
        return Err(Refusal::Unconfigured);
    }
    if room < NOTIFY {
        return Err(Refusal::WrongSize);
    }
    if i.halted == 1 {
        return Err(Refusal::Halted);
    }
    if !is_waiting(i) {
        return Err(Refusal::Wait);
    }
    Ok(())
}

pub fn write_notify(b: &mut [u8], n: Notify)
    requires { 2 ≤ length b.old }
    ensures { b.new ≡ into (notify_bytes n) b.old }
{
    b[..NOTIFY].copy_from_slice(&[n.notify1, n.notify2]);
}

pub fn interrupt_step(st: State, b: &mut [u8]) -> Given
    ensures { Hands (pick (sound st) (poll_interrupt st (length b.old)) (refuse st Unsound)) result b.old b.new }
{
    if !sound(st) {
        return refused(st, Refusal::Unsound);
    }
    if let Err(refusal) = interrupt_gate(st, b.len()) {
        return refused(st, refusal);
    }
    let i = st.small.interrupt;
    write_notify(b, i.waiting);
    Given {
        state: with_interrupt(st, polled(i)),
        verdict: only(DONE),
        len: NOTIFY,
    }
}

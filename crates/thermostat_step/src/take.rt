// A take: the message goes into the lent buffer and is let go.
ghost use Rattle.std.specs.Prelude.{◌≡◌, ℕ, length};
ghost use Rattle.rules.specs.Choice.{pick, gate};
ghost use Rattle.rules.specs.declared.refusal.Refusal.TheVariants.{Unsound};
ghost use Rattle.port.specs.Sound.{sound};
ghost use Rattle.port.specs.Answer.{refuse};
ghost use Rattle.port.specs.Device.{held_in};
ghost use Rattle.port.specs.Calls.{take_rules, released, taking};
ghost use Rattle.port.specs.Given.{Hands};

use port::types::{BulkOut, Given, State};
use rules::DONE;
use rules::refusal::Refusal;
use rules::verdict::only;
use state_parts::given::refused;
use state_parts::parts::{holding, no_message, with_out};
use state_sound::sound::sound;
use wire_code::copies::copy_in;

// The first of 2, 16 and 3 that applies to a take into `room` bytes refuses it.
#[tactic(auto, using(rules::proofs::Choice::picks))]
pub fn take_gate(st: State, room: usize) -> Result<(), Refusal>
    ensures { result ≡ gate (take_rules st room) }
{
    let message = st.small.bulkout.message;
    if st.small.port.configured != 1 {
        return Err(Refusal::Unconfigured);
    }
    if message.ready != 1 {
        return Err(Refusal::NotNow);
    }
    if room < usize::from(message.held) {
        return Err(Refusal::WrongSize);
    }
    Ok(())
}

// The message is let go.
#[tactic(auto, unfolding(port::specs::Calls::released))]
pub fn released(o: BulkOut) -> BulkOut
    ensures { result ≡ released o }
{
    holding(o, no_message(), o.transfer)
}

pub fn take_step(message: &[u8; 1024], st: State, b: &mut [u8]) -> Given
    ensures { Hands (pick (sound st) (taking st (held_in st.small.bulkout message.now) (length b.old)) (refuse st Unsound))
        result b.old b.new }
{
    if !sound(st) {
        return refused(st, Refusal::Unsound);
    }
    if let Err(refusal) = take_gate(st, b.len()) {
        return refused(st, refusal);
    }
    let o = st.small.bulkout;
    let len = usize::from(o.message.held);
    copy_in(b, 0, message, 0, len);
    Given {
        state: with_out(st, released(o)),
        verdict: only(DONE),
        len,
    }
}

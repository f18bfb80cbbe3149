// A packet is decided over the state, and its data goes into the store of the message.
ghost use Rattle.std.specs.Prelude.{◌≡◌, drop};
ghost use Rattle.std.proofs.Math.Seq.{paste};
ghost use Rattle.rules.specs.Choice.{pick};
ghost use Rattle.rules.specs.Answers.{only};
ghost use Rattle.port.specs.Sound.{sound};
ghost use Rattle.port.specs.Out.{plain, out_plan};

use crate::out::planned;
use out_outcome::outcome::outcome;
use port::types::{Plan, State};
use rules::refusal::Refusal;
use rules::verdict::Verdict;
use state_parts::given::plain;
use state_sound::sound::sound;
use wire_code::copies::copy_in;

// The step that the by-value call and the in-place form share: the packet's data goes behind what the message holds.
pub fn packet_step(message: &mut [u8; 1024], st: State, s: &[u8]) -> Plan
    ensures { (result ≡ pick (sound st) (out_plan st s.now) (plain st (only 1)))
        × (message.new ≡ paste message.old st.small.bulkout.message.held (drop result.from s.now) result.count) }
{
    if !sound(st) {
        return plain(st, Verdict::from(Refusal::Unsound));
    }
    let plan = planned(st, outcome(st, s));
    if plan.count != 0 {
        let held = usize::from(st.small.bulkout.message.held);
        copy_in(message, held, s, plan.from, plan.count);
    }
    plan
}

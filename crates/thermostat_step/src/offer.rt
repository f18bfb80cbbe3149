// An offer: whether a reply can be stored, what that leaves, and the step on its store.
ghost use Rattle.std.specs.Prelude.{◌≡◌, ℕ, ◌+◌, ◌≤◌, length, drop};
ghost use Rattle.std.proofs.Math.Seq.{paste};
ghost use Rattle.rules.specs.Choice.{pick, gate, ◌=ᵇ◌, ◌<ᵇ◌, ◌or◌};
ghost use Rattle.rules.specs.Answers.{only};
ghost use Rattle.port.specs.Sound.{sound};
ghost use Rattle.port.specs.Out.{plain};
ghost use Rattle.port.specs.Parts.{STORE, has_reply, is_clear};
ghost use Rattle.port.specs.Calls.{offer_rules, offered, offer_plan};

use port::types::{BulkIn, InReply, Plan, SENDING, STORE, State};
use rules::DONE;
use rules::refusal::Refusal;
use rules::verdict::{Verdict, only};
use state_parts::given::plain;
use state_parts::parts::{carrying, is_clear, with_in};
use state_sound::sound::sound;
use wire_code::copies::copy_in;

// A store's bytes, as a length.
const ROOM: usize = STORE as usize;

// No reply has `n` bytes.
#[tactic(auto, using(rules::proofs::Choice::bools))]
fn no_length(n: usize) -> bool
    ensures { result ≡ (n =ᵇ 0 or STORE <ᵇ n) }
{
    n == 0 || ROOM < n
}

#[tactic(auto, using(rules::proofs::Choice::bools))]
fn has_reply(b: BulkIn) -> bool
    ensures { result ≡ has_reply b }
{
    b.reply.unsent != 0 || b.transfer.phase == SENDING
}

// A reply is stored, or a clear is in progress.
#[tactic(auto, using(rules::proofs::Choice::bools))]
fn is_busy(st: State) -> bool
    ensures { result ≡ (has_reply st.small.bulkin or is_clear st.split) }
{
    has_reply(st.small.bulkin) || is_clear(st.split)
}

// The first of 2, 3 and 16 that applies to a reply of `n` bytes refuses it.
#[tactic(auto, using(rules::proofs::Choice::picks))]
pub fn offer_gate(st: State, n: usize) -> Result<(), Refusal>
    ensures { result ≡ gate (offer_rules st n) }
{
    if st.small.port.configured != 1 {
        return Err(Refusal::Unconfigured);
    }
    if no_length(n) {
        return Err(Refusal::WrongSize);
    }
    if is_busy(st) {
        return Err(Refusal::NotNow);
    }
    Ok(())
}

// A reply of `n` bytes at the front of its store.
#[tactic(auto, unfolding(port::specs::Calls::offered))]
pub fn offered(b: BulkIn, n: u16) -> BulkIn
    ensures { result ≡ offered b n }
{
    carrying(b, InReply { at: 0, unsent: n }, b.transfer)
}

// What an offer of `n` bytes leaves; a plan that stores bytes stores as many as were offered, and they have room.
fn offer_plan(st: State, n: usize) -> Plan
    ensures { (result ≡ offer_plan st n) × (result.from + result.count ≤ n) × (result.count ≤ STORE) }
{
    if let Err(refusal) = offer_gate(st, n) {
        return plain(st, Verdict::from(refusal));
    }
    Plan {
        state: with_in(st, offered(st.small.bulkin, n as u16)),
        verdict: only(DONE),
        from: 0,
        count: n,
    }
}

// The offer is decided over the state, and its bytes go to the front of the reply store.
pub fn offer_step(reply: &mut [u8; 1024], st: State, bytes: &[u8]) -> Plan
    ensures { (result ≡ pick (sound st) (offer_plan st (length bytes.now)) (plain st (only 1)))
        × (reply.new ≡ paste reply.old 0 (drop result.from bytes.now) result.count) }
{
    if !sound(st) {
        return plain(st, Verdict::from(Refusal::Unsound));
    }
    let plan = offer_plan(st, bytes.len());
    copy_in(reply, 0, bytes, plan.from, plan.count);
    plan
}

// What a setup packet comes to, and an answered row with its bytes in the lent buffer.
ghost use Rattle.std.specs.Prelude.{◌≡◌, ℕ, ◌≤◌, Err, length};
ghost use Rattle.rules.specs.Choice.{pick, gate};
ghost use Rattle.rules.specs.declared.refusal.Refusal.TheVariants.{Unsound};
ghost use Rattle.wire.specs.Bytes.{into};
ghost use Rattle.wire.specs.Setup.{CONTROL};
ghost use Rattle.port.specs.Sound.{sound};
ghost use Rattle.port.specs.Rows.{answer_row, reacted};
ghost use Rattle.port.specs.Given.{Hands};
ghost use Rattle.port.specs.Calls.{setup_rules, asked, setup_outcome};
ghost use Rattle.setup_step.specs.Replied.{replied_of};

use crate::effects::effected;
use crate::rows::answer_row;
use crate::types::Replied;
use port::types::{Given, SetupOutcome, State};
use rules::refusal::Refusal;
use setup_read::setup::read_setup;
use state_sound::sound::sound;
use wire::types::{CONTROL, Row, SETUP, Setup};
use wire_code::copies::copy_in;

// A packet that has not n = SETUP bytes is refused, and a control buffer that has too few.
#[tactic(auto, using(rules::proofs::Choice::picks))]
fn setup_gate(n: usize, room: usize) -> Result<(), Refusal>
    ensures { result ≡ gate (setup_rules n room) }
{
    if n != SETUP || room < CONTROL {
        return Err(Refusal::WrongSize);
    }
    Ok(())
}

// A row is served by a configured unit alone, SET_CONFIGURATION by any.
#[tactic(auto, using(rules::proofs::Choice::picks), unfolding(port::specs::Calls::asked))]
fn asked(st: State, x: Option<Setup>) -> SetupOutcome
    ensures { result ≡ asked st x }
{
    match x {
        Some(Setup::Asks { .. }) if st.small.port.configured != 1 => Err(Refusal::UnknownRow),
        Some(asks) => Ok(asks),
        None => Err(Refusal::UnknownRow),
    }
}

// What a setup packet comes to on a sound unit.
pub fn setup_outcome(st: State, s: &[u8], room: usize) -> SetupOutcome
    ensures { result ≡ setup_outcome st s.now room }
{
    setup_gate(s.len(), room)?;
    asked(st, read_setup(s))
}

// And on any.
#[tactic(auto, using(rules::proofs::Choice::picks))]
pub fn decided(st: State, s: &[u8], room: usize) -> SetupOutcome
    ensures { result ≡ pick (sound st) (setup_outcome st s.now room) (Err Unsound) }
{
    if sound(st) {
        setup_outcome(st, s, room)
    } else {
        Err(Refusal::Unsound)
    }
}

// A row is answered: its bytes go into the lent buffer.
pub fn reply(st: State, row: Row, b: &mut [u8]) -> Replied
    requires { CONTROL ≤ length b.old }
    ensures { (result ≡ replied_of (answer_row st row)) × (b.new ≡ into (answer_row st row).answer.bytes b.old) }
{
    let answer = answer_row(st, row);
    copy_in(b, 0, &answer.bytes, 0, answer.len);
    Replied {
        effect: answer.effect,
        verdict: answer.verdict,
        len: answer.len,
    }
}

// And does what it does.
pub fn row_step(st: State, row: Row, b: &mut [u8]) -> Given
    requires { CONTROL ≤ length b.old }
    ensures { Hands (reacted st (answer_row st row)) result b.old b.new }
{
    let r = reply(st, row, b);
    Given {
        state: effected(st, r.effect),
        verdict: r.verdict,
        len: r.len,
    }
}

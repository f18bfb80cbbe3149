// The call.
ghost use Rattle.std.specs.Prelude.{Ok, length};
ghost use Rattle.wire.specs.declared.types.Setup.{Setup};
ghost use Rattle.port.specs.Step.{setup_of};
ghost use Rattle.c_promise.specs.Promise.{SetupComesTo, on_bytes, Fills};

use c_bytes::places::UNIT;
use c_effects::effects::put_effect;
use c_parts::read::{part_of, state_of};
use c_promise::answer::{done, refused};
use c_promise::make::make;
use c_promise::state::sound_state;
use c_promise::types::TmcAnswer;
use port::types::{Port, SetupOutcome};
use setup_step::serve::{reply, setup_outcome};
use wire::types::{Row, Setup};

// What a setup packet comes to; it is refused with 1 where the bytes are no sound unit's.
fn outcome_of(u: &[u8; UNIT], s: &[u8], room: usize) -> SetupOutcome
    ensures { SetupComesTo u.now s.now room result }
{
    setup_outcome(sound_state(u)?, s, room)
}

fn renews(u: &mut [u8; UNIT], s: &[u8], b: &mut [u8], value: u8) -> TmcAnswer
    requires { SetupComesTo u.old s.now (length b.old) (Ok (Setup.Configure value)) }
    ensures { Fills (on_bytes u.old (setup_of s.now (length b.old))) b.old b.new
        u.new result }
{
    let p: Port = part_of(u);
    make(u, p.setting, value);
    done()
}

fn answers(u: &mut [u8; UNIT], s: &[u8], b: &mut [u8], row: Row) -> TmcAnswer
    requires { SetupComesTo u.old s.now (length b.old) (Ok (Setup.Asks row)) }
    ensures { Fills (on_bytes u.old (setup_of s.now (length b.old))) b.old b.new
        u.new result }
{
    let r = reply(state_of(u), row, b);
    put_effect(u, r.effect);
    TmcAnswer {
        verdict: r.verdict,
        len: r.len,
    }
}

// A setup packet; its answer goes into the control buffer `b`.
pub fn setup(u: &mut [u8; UNIT], s: &[u8], b: &mut [u8]) -> TmcAnswer
    ensures { Fills (on_bytes u.old (setup_of s.now (length b.old))) b.old b.new
        u.new result }
{
    match outcome_of(u, s, b.len()) {
        Err(refusal) => refused(refusal),
        Ok(Setup::Configure { value }) => renews(u, s, b, value),
        Ok(Setup::Asks { row }) => answers(u, s, b, row),
    }
}

// The state of a unit in bytes, where it is sound.
ghost use Rattle.std.specs.Prelude.{Ok, Err};
ghost use Rattle.rules.specs.declared.refusal.Refusal.TheVariants.{Unsound};
ghost use Rattle.c_bytes.specs.Layout.{state_in};
ghost use Rattle.c_promise.specs.Promise.{Decided};

use c_bytes::places::UNIT;
use c_parts::read::{is_sound, state_of};
use port::types::State;
use rules::refusal::Refusal;

// Where it stands, so that of the state only what a call goes on to read is read again.
#[inline(always)]
#[tactic(auto, using(crate::proofs::Called::on_sound, crate::proofs::Called::on_other))]
pub fn sound_state(u: &[u8; UNIT]) -> Result<State, Refusal>
    ensures { Decided u.now (Ok (state_in u.now)) (Err Unsound) result }
{
    if is_sound(u) {
        Ok(state_of(u))
    } else {
        Err(Refusal::Unsound)
    }
}

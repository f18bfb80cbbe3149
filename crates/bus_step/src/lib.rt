// Suspend in code, decided over the small state by value.
#![tactic(auto)]

ghost use Rattle.std.specs.Prelude.{◌≡◌, [], ℕ};
ghost use Rattle.rules.specs.Choice.{pick};
ghost use Rattle.rules.specs.declared.refusal.Refusal.TheVariants.{Unsound};
ghost use Rattle.port.specs.Sound.{sound};
ghost use Rattle.port.specs.Remote.{local_now};
ghost use Rattle.port.specs.Answer.{says, refuse};
ghost use Rattle.port.specs.Given.{given_of};

use port::types::{Given, State};
use rules::refusal::Refusal;
use state_parts::given::{done, refused};
use state_remote::remote::local_now;
use state_sound::sound::sound;

#[tactic(auto, using(state_parts::proofs::Handed::unsound_given, state_parts::proofs::Handed::sound_given))]
pub fn suspended(st: State) -> Given
    ensures { result ≡ given_of (pick (sound st) (says (local_now st) []) (refuse st Unsound)) }
{
    if sound(st) {
        done(local_now(st))
    } else {
        refused(st, Refusal::Unsound)
    }
}

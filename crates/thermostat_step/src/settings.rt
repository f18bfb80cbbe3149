// The thermostat sets its status byte, or asks at its panel for local control.
ghost use Rattle.std.specs.Prelude.{◌≡◌, ℕ};
ghost use Rattle.rules.specs.Choice.{pick, gate};
ghost use Rattle.rules.specs.declared.refusal.Refusal.TheVariants.{Unsound};
ghost use Rattle.port.specs.Sound.{sound};
ghost use Rattle.port.specs.Answer.{refuse};
ghost use Rattle.port.specs.Calls.{thermostat_rules, status_set, returned};
ghost use Rattle.port.specs.Given.{given_of};

use interrupt_step::part::status_held;
use port::types::{Given, State};
use rules::refusal::Refusal;
use state_parts::given::{done, refused};
use state_parts::parts::{with_interrupt, with_remote};
use state_remote::remote::by_panel;
use state_sound::sound::sound;

// A state that is not configured is refused.
#[tactic(auto, using(rules::proofs::Choice::picks))]
pub fn thermostat_gate(st: State) -> Result<(), Refusal>
    ensures { result ≡ gate (thermostat_rules st) }
{
    if st.small.port.configured == 1 {
        Ok(())
    } else {
        Err(Refusal::Unconfigured)
    }
}

#[tactic(auto, using(crate::proofs::SettingLaws::status_ways))]
pub fn status_set(st: State, status: u8) -> Given
    ensures { result ≡ given_of (pick (sound st) (status_set st status) (refuse st Unsound)) }
{
    if !sound(st) {
        return refused(st, Refusal::Unsound);
    }
    if let Err(refusal) = thermostat_gate(st) {
        return refused(st, refusal);
    }
    let i = st.small.interrupt;
    done(with_interrupt(st, status_held(i, status)))
}

// Local control, asked for at the front panel.
#[tactic(auto, using(crate::proofs::SettingLaws::return_ways))]
pub fn returned(st: State) -> Given
    ensures { result ≡ given_of (pick (sound st) (returned st) (refuse st Unsound)) }
{
    if !sound(st) {
        return refused(st, Refusal::Unsound);
    }
    if let Err(refusal) = thermostat_gate(st) {
        return refused(st, refusal);
    }
    done(with_remote(st, by_panel(st.remote)))
}

// What each row answers, in the order of the table.
ghost use Rattle.std.specs.Prelude.{◌≡◌, ℕ};
ghost use Rattle.port.specs.Rows.{read_status, halt, answer_row};
ghost use Rattle.setup_splits.specs.Control.{control_of};

use port::types::{Effect, InterruptIn, State};
use rules::verdict::Verdict;
use rules::{DONE, INTERRUPT_IN_BUSY, SUCCESS, TELLS_PULSE};
use setup_splits::aborts::{
    check_abort_in, check_abort_out, initiate_abort_in, initiate_abort_out,
};
use setup_splits::clear::{check_clear, initiate_clear};
use setup_splits::reacts::reacts;
use setup_splits::types::Control;
use state_sound::sound::is_waiting;
use wire::types::{Endpoint, Row};

// 24 bytes: USBTMC and USB488 1.0, INDICATOR_PULSE, and what of USB488 and 488.2 is served.
const CAPABILITIES: [u8; 24] = [
    1, 0, 0, 1, 4, 1, 0, 0, 0, 0, 0, 0, 0, 1, 3, 7, 0, 0, 0, 0, 0, 0, 0, 0,
];

#[tactic(auto, unfolding(port::specs::Rows::answer_row))]
fn indicator_pulse(st: State) -> Control
    ensures { result ≡ control_of (answer_row st Row.IndicatorPulse) }
{
    Control {
        verdict: Verdict {
            number: DONE,
            tells: TELLS_PULSE,
        },
        ..reacts(Effect::Stays, [SUCCESS])
    }
}

fn halt(st: State, endpoint: Endpoint) -> u8
    ensures { result ≡ halt st endpoint }
{
    match endpoint {
        Endpoint::Out => st.small.bulkout.halted,
        Endpoint::In => st.small.bulkin.halted,
        Endpoint::Interrupt => st.small.interrupt.halted,
    }
}

// READ_STATUS_BYTE: busy while a packet waits, else the packet that it queues tells the status byte.
#[tactic(auto, using(crate::proofs::StatusRows::status_rows))]
fn read_status(i: InterruptIn, tag: u8) -> Control
    ensures { result ≡ control_of (read_status i tag) }
{
    if is_waiting(i) {
        reacts(Effect::Stays, [INTERRUPT_IN_BUSY, tag, 0])
    } else {
        reacts(Effect::Queues { tag }, [SUCCESS, tag, 0])
    }
}

#[tactic(auto, unfolding(port::specs::Rows::answer_row))]
pub fn answer_row(st: State, row: Row) -> Control
    ensures { result ≡ control_of (answer_row st row) }
{
    let b = st.small.bulkin;
    match row {
        Row::InitiateAbortBulkOut { tag } => initiate_abort_out(st, tag),
        Row::CheckAbortBulkOutStatus => check_abort_out(st.split),
        Row::InitiateAbortBulkIn { tag } => initiate_abort_in(st, tag),
        Row::CheckAbortBulkInStatus => check_abort_in(b, st.split),
        Row::InitiateClear => initiate_clear(st.split),
        Row::CheckClearStatus => check_clear(b, st.split),
        Row::GetCapabilities => reacts(Effect::Stays, CAPABILITIES),
        Row::IndicatorPulse => indicator_pulse(st),
        Row::ReadStatusByte { tag } => read_status(st.small.interrupt, tag),
        Row::RenControl { on } => reacts(Effect::SetsRen { on }, [SUCCESS]),
        Row::GoToLocal => reacts(Effect::GoesToLocal, [SUCCESS]),
        Row::LocalLockout => reacts(Effect::LocksOut, [SUCCESS]),
        Row::ClearFeature { endpoint } => reacts(Effect::ClearsHalt { endpoint }, []),
        Row::SetFeature { endpoint } => reacts(Effect::SetsHalt { endpoint }, []),
        Row::GetStatus { endpoint } => reacts(Effect::Stays, [halt(st, endpoint), 0]),
    }
}

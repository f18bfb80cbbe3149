// INITIATE_CLEAR and CHECK_CLEAR_STATUS.
ghost use Rattle.std.specs.Prelude.{◌≡◌, ℕ};
ghost use Rattle.port.specs.Rows.{initiate_clear, check_clear};
ghost use Rattle.setup_splits.specs.Control.{control_of};

use crate::reacts::reacts;
use crate::types::Control;
use port::types::{BulkIn, Effect, OWED, Split};
use rules::{PENDING, SPLIT_IN_PROGRESS, SPLIT_NOT_IN_PROGRESS, SUCCESS};
use state_parts::parts::is_clear;

#[tactic(auto, using(crate::proofs::SplitLaws::splits))]
pub fn initiate_clear(split: Split) -> Control
    ensures { result ≡ control_of (initiate_clear split) }
{
    if is_clear(split) {
        reacts(Effect::Stays, [SPLIT_IN_PROGRESS])
    } else {
        reacts(Effect::Clears, [SUCCESS])
    }
}

#[tactic(auto, using(crate::proofs::SplitLaws::splits))]
pub fn check_clear(b: BulkIn, split: Split) -> Control
    ensures { result ≡ control_of (check_clear b split) }
{
    if !is_clear(split) {
        reacts(Effect::Stays, [SPLIT_NOT_IN_PROGRESS, 0])
    } else if b.transfer.phase == OWED {
        reacts(Effect::Stays, [PENDING, 1])
    } else {
        reacts(Effect::EndsSplit, [SUCCESS, 0])
    }
}

// Answers by their bytes: done, and telling nothing.
ghost use Rattle.std.specs.Prelude.{◌≡◌, ◌≤◌, ℕ};
ghost use Rattle.port.specs.Rows.{reacts, abort_status};
ghost use Rattle.setup_splits.specs.Control.{control_of};

use crate::types::Control;
use port::types::Effect;
use rules::DONE;
use rules::verdict::only;
use wire_code::numbers::bytes_of;

// An answer of these bytes, of which there are at most 24.
pub fn reacts<const N: usize>(effect: Effect, answer: [u8; N]) -> Control
    requires { N ≤ 24 }
    ensures { result ≡ control_of (reacts effect answer.entry) }
{
    let mut bytes = [0; 24];
    bytes[..N].copy_from_slice(&answer);
    Control {
        effect,
        verdict: only(DONE),
        len: N,
        bytes,
    }
}

// The eight bytes of CHECK_ABORT.
#[tactic(auto, unfolding(wire::specs::Bytes::bytes4))]
pub fn reacts_abort(effect: Effect, status: u8, d0: u8, count: u16) -> Control
    ensures { result ≡ control_of (reacts effect (abort_status status d0 count)) }
{
    let [a, b, c, d] = bytes_of(u32::from(count));
    reacts(effect, [status, d0, 0, 0, a, b, c, d])
}

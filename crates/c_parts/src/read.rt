// A part of a unit from its bytes.
ghost use Rattle.std.specs.Prelude.{◌≡◌, ℕ, ◌+◌, ◌≤◌, length};
ghost use Rattle.rules.specs.Choice.{◌and◌};
ghost use Rattle.port.specs.Parts.{out_of, in_of};
ghost use Rattle.port.specs.Sound.{sound};
ghost use Rattle.c_bytes.specs.Layout.{UNIT, part, state_in, is_unit, Bytes};

use c_bytes::bytes::is_split;
use c_bytes::part::Part;
use c_bytes::places::{
    IN_HALTED_AT, IN_RECENT_AT, OUT_HALTED_AT, OUT_RECENT_AT, REMOTE_AT, SPLIT_AT, UNIT,
};
use port::types::{BulkIn, BulkOut, Small, State};
use state_sound::sound::sound;

// N of its bytes, from `at` on.
pub fn part<const N: usize>(u: &[u8], at: usize) -> &[u8; N]
    requires { at + N ≤ length u.now }
    ensures { result.now ≡ part at N u.now }
{
    u[at..at + N].as_array().unwrap()
}

pub fn part_of<const N: usize, P: Part<N>>(u: &[u8; UNIT]) -> P
    ensures { result ≡ P.of (state_in u.now) }
{
    P::from_bytes(part(u, P::AT))
}

#[tactic(auto, unfolding(c_bytes::specs::Layout::state_in))]
pub fn out_of(u: &[u8; UNIT]) -> BulkOut
    ensures { result ≡ out_of (state_in u.now) }
{
    BulkOut {
        message: part_of(u),
        transfer: part_of(u),
        halted: u[OUT_HALTED_AT],
        recent: u[OUT_RECENT_AT],
    }
}

#[tactic(auto, unfolding(c_bytes::specs::Layout::state_in))]
pub fn in_of(u: &[u8; UNIT]) -> BulkIn
    ensures { result ≡ in_of (state_in u.now) }
{
    BulkIn {
        reply: part_of(u),
        transfer: part_of(u),
        halted: u[IN_HALTED_AT],
        recent: u[IN_RECENT_AT],
    }
}

pub fn state_of(u: &[u8; UNIT]) -> State
    ensures { result ≡ state_in u.now }
{
    State {
        small: Small {
            port: part_of(u),
            bulkout: out_of(u),
            bulkin: in_of(u),
            interrupt: part_of(u),
        },
        split: part_of(u),
        remote: part_of(u),
    }
}

// ** what is a unit

// Whether these are the bytes of a unit, sound or not; what stands behind them does not matter.
#[tactic(auto, using(rules::proofs::Choice::picks), unfolding(c_bytes::specs::Layout::is_unit))]
pub fn is_unit(u: &[u8]) -> bool
    requires { UNIT ≤ length u.now }
    ensures { result ≡ is_unit u.now }
{
    u[REMOTE_AT] <= 3 && is_split(part(u, SPLIT_AT))
}

// Whether these are the bytes of a sound unit; that they are bytes, their type says.
pub fn is_sound(u: &[u8; UNIT]) -> bool
    ensures { (result ≡ (is_unit u.now and sound (state_in u.now))) × Bytes u.now }
{
    is_unit(u) && sound(state_of(u))
}

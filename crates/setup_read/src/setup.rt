// Reading a setup packet: which row its eight bytes match.
ghost use Rattle.std.specs.Prelude.{◌≡◌, ℕ, ◌≤◌, length, MatchOption};
ghost use Rattle.wire.specs.Setup.{matches, row, by_endpoint};
ghost use Rattle.wire.specs.Setup.{to_endpoint, to_interface, to_feature, to_status, to_device, read_setup};
ghost use Rattle.wire.specs.declared.types.Endpoint.{Endpoint};
ghost use Rattle.wire.specs.declared.types.Row.{Row};

use wire::types::{BULK_IN, BULK_OUT, CONTROL, Endpoint, INTERRUPT_IN, Row, SETUP, Setup};
use wire_code::numbers::le_u16;

// The endpoints, as wIndex names them.
const OUT: u32 = BULK_OUT as u32;

const IN: u32 = BULK_IN as u32;

const INTERRUPT: u32 = INTERRUPT_IN as u32;

// The length of the answer of GET_CAPABILITIES.
const LONGEST: u32 = CONTROL as u32;

// wValue, wIndex and wLength are those of a row.
#[tactic(auto, using(rules::proofs::Choice::picks), unfolding(wire::specs::Setup::fitting))]
fn matches(s: &[u8; SETUP], low: u32, high: u32, index: u32, size: u32) -> bool
    ensures { result ≡ matches s.now low high index size }
{
    (low..=high).contains(&le_u16(s, 2)) && le_u16(s, 4) == index && le_u16(s, 6) == size
}

// What is asked, where the row matched.
#[tactic(auto, unfolding(rules::specs::Choice::pick))]
fn asked_where(fits: bool, asked: Setup) -> Option<Setup>
    ensures { result ≡ row fits asked }
{
    if fits { Some(asked) } else { None }
}

// The same of a row that a configured unit alone serves.
fn row(fits: bool, asked: Row) -> Option<Setup>
    ensures { result ≡ row fits (Setup.Asks asked) }
{
    asked_where(fits, Setup::Asks { row: asked })
}

// The endpoint that wIndex names, of a row by endpoint: one of wValue 0 and a wLength of `size`.
#[tactic(auto, using(rules::proofs::Choice::picks), unfolding(wire::specs::Setup::fitting))]
fn endpoint(s: &[u8; SETUP], size: u32) -> Option<Endpoint>
    ensures { MatchOption result
        ((asked : Endpoint → Row) → None ≡ by_endpoint s.now size asked)
        (λ e. (asked : Endpoint → Row) → Some (Setup.Asks (asked e)) ≡ by_endpoint s.now size asked) }
{
    if le_u16(s, 2) != 0 || le_u16(s, 6) != size {
        return None;
    }
    match le_u16(s, 4) {
        OUT => Some(Endpoint::Out),
        IN => Some(Endpoint::In),
        INTERRUPT => Some(Endpoint::Interrupt),
        _ => None,
    }
}

// To an endpoint, A2.
#[tactic(auto, using(rules::proofs::Choice::picks), unfolding(wire::specs::Setup::to_endpoint))]
fn to_endpoint(s: &[u8; SETUP]) -> Option<Setup>
    ensures { result ≡ to_endpoint s.now }
{
    let tag = s[2];
    match s[1] {
        1 => row(
            matches(s, 1, 255, OUT, 2),
            Row::InitiateAbortBulkOut { tag },
        ),
        2 => row(matches(s, 0, 0, OUT, 8), Row::CheckAbortBulkOutStatus),
        3 => row(matches(s, 1, 255, IN, 2), Row::InitiateAbortBulkIn { tag }),
        4 => row(matches(s, 0, 0, IN, 8), Row::CheckAbortBulkInStatus),
        _ => None,
    }
}

// To the interface, A1.
#[tactic(auto, using(rules::proofs::Choice::picks), unfolding(wire::specs::Setup::to_interface))]
fn to_interface(s: &[u8; SETUP]) -> Option<Setup>
    ensures { result ≡ to_interface s.now }
{
    let value = s[2];
    match s[1] {
        5 => row(matches(s, 0, 0, 0, 1), Row::InitiateClear),
        6 => row(matches(s, 0, 0, 0, 2), Row::CheckClearStatus),
        7 => row(matches(s, 0, 0, 0, LONGEST), Row::GetCapabilities),
        64 => row(matches(s, 0, 0, 0, 1), Row::IndicatorPulse),
        128 => row(matches(s, 2, 127, 0, 3), Row::ReadStatusByte { tag: value }),
        160 => row(matches(s, 0, 1, 0, 1), Row::RenControl { on: value }),
        161 => row(matches(s, 0, 0, 0, 1), Row::GoToLocal),
        162 => row(matches(s, 0, 0, 0, 1), Row::LocalLockout),
        _ => None,
    }
}

// CLEAR_FEATURE and SET_FEATURE of an endpoint, 02.
#[tactic(auto, using(rules::proofs::Choice::picks), unfolding(wire::specs::Setup::to_feature))]
fn to_feature(s: &[u8; SETUP]) -> Option<Setup>
    ensures { result ≡ to_feature s.now }
{
    let endpoint = endpoint(s, 0)?;
    match s[1] {
        1 => Some(Setup::Asks {
            row: Row::ClearFeature { endpoint },
        }),
        3 => Some(Setup::Asks {
            row: Row::SetFeature { endpoint },
        }),
        _ => None,
    }
}

// GET_STATUS of an endpoint, 82.
#[tactic(auto, using(rules::proofs::Choice::picks), unfolding(wire::specs::Setup::to_status))]
fn to_status(s: &[u8; SETUP]) -> Option<Setup>
    ensures { result ≡ to_status s.now }
{
    let endpoint = endpoint(s, 2)?;
    match s[1] {
        0 => Some(Setup::Asks {
            row: Row::GetStatus { endpoint },
        }),
        _ => None,
    }
}

// SET_CONFIGURATION, 00.
#[tactic(auto, using(rules::proofs::Choice::picks), unfolding(wire::specs::Setup::to_device))]
fn to_device(s: &[u8; SETUP]) -> Option<Setup>
    ensures { result ≡ to_device s.now }
{
    let value = s[2];
    match s[1] {
        9 => asked_where(matches(s, 0, 1, 0, 0), Setup::Configure { value }),
        _ => None,
    }
}

// The request type first.
#[tactic(auto, using(rules::proofs::Choice::picks), unfolding(wire::specs::Setup::read_setup))]
fn by_type(s: &[u8; SETUP]) -> Option<Setup>
    ensures { result ≡ read_setup s.now }
{
    match s[0] {
        0xA2 => to_endpoint(s),
        0xA1 => to_interface(s),
        0x02 => to_feature(s),
        0x82 => to_status(s),
        0x00 => to_device(s),
        _ => None,
    }
}

// What a setup packet of eight bytes asks.
#[tactic(auto, using(crate::proofs::Front::first_eight))]
pub fn read_setup(s: &[u8]) -> Option<Setup>
    requires { SETUP ≤ length s.now }
    ensures { result ≡ read_setup s.now }
{
    by_type(s.first_chunk::<SETUP>().unwrap())
}

// Reading a Bulk-OUT header: what it says, or its first fault; and writing a Bulk-IN header.
ghost use Rattle.std.specs.Prelude.{◌≡◌, ℕ, ◌≤◌, length};
ghost use Rattle.wire.specs.Bytes.{zeros, into};
ghost use Rattle.wire.specs.Header.{HEADER, inverse, not_in_fours, read_message, read_request, read_trigger, read_header, in_header};

use crate::numbers::{bytes_of, le_u32};
use rules::refusal::Refusal;
use wire::types::{Header, Read};

// Bytes of a header.
pub const HEADER: usize = 12;

// The bits of a length that are off in a multiple of four.
const BELOW_FOUR: usize = 3;

// The kinds of header.
const DEV_DEP_MSG_OUT: u8 = 1;

const REQUEST_DEV_DEP_MSG_IN: u8 = 2;

const TRIGGER: u8 = 128;

// The bits of the attributes.
pub const D0: u8 = 1;

pub const D1: u8 = 2;

fn inverse(tag: u8) -> u8
    ensures { result ≡ inverse tag }
{
    255 - tag
}

// The last two bytes of a header are 0; the last three; and so on, to the last nine. Each is the one above it and a test more: a loop over
// so few bytes would test its own end as often.
#[tactic(auto, using(wire::proofs::Bytes::zero_runs))]
fn two_zeros(h: &[u8; HEADER]) -> bool
    ensures { result ≡ zeros h.now 10 HEADER }
{
    h[10] == 0 && h[11] == 0
}

#[tactic(auto, using(wire::proofs::Bytes::zero_runs))]
fn three_zeros(h: &[u8; HEADER]) -> bool
    ensures { result ≡ zeros h.now 9 HEADER }
{
    h[9] == 0 && two_zeros(h)
}

#[tactic(auto, using(wire::proofs::Bytes::zero_runs))]
fn four_zeros(h: &[u8; HEADER]) -> bool
    ensures { result ≡ zeros h.now 8 HEADER }
{
    h[8] == 0 && three_zeros(h)
}

#[tactic(auto, using(wire::proofs::Bytes::zero_runs))]
fn eight_zeros(h: &[u8; HEADER]) -> bool
    ensures { result ≡ zeros h.now 4 HEADER }
{
    le_u32(h, 4) == 0 && four_zeros(h)
}

#[tactic(auto, using(wire::proofs::Bytes::zero_runs))]
fn nine_zeros(h: &[u8; HEADER]) -> bool
    ensures { result ≡ zeros h.now 3 HEADER }
{
    h[3] == 0 && eight_zeros(h)
}

// DEV_DEP_MSG_OUT.
#[tactic(auto, using(rules::proofs::Choice::picks), unfolding(wire::specs::Header::read_message))]
fn read_message(h: &[u8; HEADER]) -> Read
    ensures { result ≡ read_message h.now }
{
    let size = le_u32(h, 4);
    let end = h[8];
    if h[3] != 0 || size == 0 || D0 < end || !three_zeros(h) {
        return Err(Refusal::Reserved);
    }
    Ok(Header::Message {
        tag: h[1],
        size,
        end,
    })
}

// REQUEST_DEV_DEP_MSG_IN.
#[tactic(auto, using(rules::proofs::Choice::picks), unfolding(wire::specs::Header::read_request))]
fn read_request(h: &[u8; HEADER]) -> Read
    ensures { result ≡ read_request h.now }
{
    let size = le_u32(h, 4);
    if h[3] != 0 || size == 0 || !two_zeros(h) {
        return Err(Refusal::Reserved);
    }
    let tag = h[1];
    match h[8] {
        0 => Ok(Header::Request {
            tag,
            size,
            enabled: 0,
            term: 0,
        }),
        D1 => Ok(Header::Request {
            tag,
            size,
            enabled: 1,
            term: h[9],
        }),
        _ => Err(Refusal::Reserved),
    }
}

// TRIGGER.
#[tactic(auto, using(rules::proofs::Choice::picks), unfolding(wire::specs::Header::read_trigger))]
fn read_trigger(h: &[u8; HEADER]) -> Read
    ensures { result ≡ read_trigger h.now }
{
    if nine_zeros(h) {
        Ok(Header::Trigger { tag: h[1] })
    } else {
        Err(Refusal::Reserved)
    }
}

// A packet whose length is no multiple of four, be it a header's or one that goes on with a transfer.
pub fn not_in_fours(s: &[u8]) -> bool
    ensures { result ≡ not_in_fours s.now }
{
    s.len() & BELOW_FOUR != 0
}

// The header at the start of a packet.
#[tactic(auto, using(rules::proofs::Choice::picks), unfolding(wire::specs::Header::read_header))]
pub fn read_header(s: &[u8]) -> Read
    ensures { result ≡ read_header s.now }
{
    if not_in_fours(s) {
        return Err(Refusal::NotInFours);
    }
    let Some(h) = s.first_chunk::<HEADER>() else {
        return Err(Refusal::ShortHeader);
    };
    let tag = h[1];
    if tag == 0 || h[2] != inverse(tag) {
        return Err(Refusal::BadTag);
    }
    match h[0] {
        DEV_DEP_MSG_OUT => read_message(h),
        REQUEST_DEV_DEP_MSG_IN => read_request(h),
        TRIGGER => read_trigger(h),
        _ => Err(Refusal::UnknownMsgId),
    }
}

// A Bulk-IN header in the first 12 bytes; every other byte stays.
#[tactic(auto, unfolding(wire::specs::Header::in_header, wire::specs::Bytes::bytes4, wire::specs::Bytes::into))]
pub fn write_header(buf: &mut [u8], tag: u8, n: u32, attributes: u8)
    requires { HEADER ≤ length buf.old }
    ensures { buf.new ≡ into (in_header tag n attributes) buf.old }
{
    let [a, b, c, d] = bytes_of(n);
    buf[..HEADER].copy_from_slice(&[
        REQUEST_DEV_DEP_MSG_IN,
        tag,
        inverse(tag),
        0,
        a,
        b,
        c,
        d,
        attributes,
        0,
        0,
        0,
    ]);
}

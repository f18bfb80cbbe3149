// What a Bulk-OUT packet leaves, by what it comes to.
ghost use Rattle.std.specs.Prelude.{◌≡◌, ℕ};
ghost use Rattle.port.specs.Out.{opened, CanAbsorb, CanAccept, Can, accepted, planned};

use crate::sides::{absorbed, opened, requested, tagged};
use port::types::{Outcome, Plan, State};
use rules::verdict::{Verdict, only};
use rules::{DONE, TELLS_TRIGGER};
use state_parts::given::plain;
use state_parts::parts::{broken, with_in, with_out, with_remote};
use state_remote::remote::headed;
use wire::types::Header;
use wire_code::header::HEADER;

// A DEV_DEP_MSG_OUT header with its first data bytes.
#[tactic(auto, unfolding(port::specs::Out::accepted))]
fn message_accepted(st: State, tag: u8, size: u32, end: u8, count: usize) -> Plan
    requires { CanAbsorb (opened st.small.bulkout tag size end) count }
    ensures { result ≡ accepted st (Header.Message tag size end) count }
{
    let remote = headed(st.small.port.ren, st.remote);
    let bulkout = absorbed(opened(st.small.bulkout, tag, size as u16, end), count);
    Plan {
        state: with_remote(with_out(st, bulkout), remote),
        verdict: only(DONE),
        from: HEADER,
        count,
    }
}

// A REQUEST_DEV_DEP_MSG_IN header.
#[tactic(auto, unfolding(port::specs::Out::accepted))]
fn request_accepted(st: State, tag: u8, size: u32, enabled: u8, term: u8, count: usize) -> Plan
    ensures { result ≡ accepted st (Header.Request tag size enabled term) count }
{
    let out = with_out(st, tagged(st.small.bulkout, tag));
    let bulkin = requested(st.small.bulkin, tag, size, enabled, term);
    plain(with_in(out, bulkin), only(DONE))
}

// A TRIGGER header.
#[tactic(auto, unfolding(port::specs::Out::accepted))]
fn trigger_accepted(st: State, tag: u8, count: usize) -> Plan
    ensures { result ≡ accepted st (Header.Trigger tag) count }
{
    plain(
        with_out(st, tagged(st.small.bulkout, tag)),
        Verdict {
            number: DONE,
            tells: TELLS_TRIGGER,
        },
    )
}

fn accepted(st: State, h: Header, count: usize) -> Plan
    requires { CanAccept st h count }
    ensures { result ≡ accepted st h count }
{
    match h {
        Header::Message { tag, size, end } => message_accepted(st, tag, size, end, count),
        Header::Request {
            tag,
            size,
            enabled,
            term,
        } => request_accepted(st, tag, size, enabled, term, count),
        Header::Trigger { tag } => trigger_accepted(st, tag, count),
    }
}

#[tactic(auto, unfolding(port::specs::Out::planned))]
fn halts(st: State, number: u8) -> Plan
    ensures { result ≡ planned st (Outcome.Halt number) }
{
    let o = st.small.bulkout;
    plain(with_out(st, broken(1, o)), only(number))
}

#[tactic(auto, unfolding(port::specs::Out::planned))]
fn data(st: State, count: usize) -> Plan
    requires { CanAbsorb st.small.bulkout count }
    ensures { result ≡ planned st (Outcome.Data count) }
{
    Plan {
        state: with_out(st, absorbed(st.small.bulkout, count)),
        verdict: only(DONE),
        from: 0,
        count,
    }
}

// What an outcome leaves.
#[tactic(auto, unfolding(port::specs::Out::planned))]
pub fn planned(st: State, x: Outcome) -> Plan
    requires { Can st x }
    ensures { result ≡ planned st x }
{
    match x {
        Outcome::Keep { number } => plain(st, only(number)),
        Outcome::Halt { number } => halts(st, number),
        Outcome::Data { count } => data(st, count),
        Outcome::Accept { header, count } => accepted(st, header, count),
    }
}

// A Bulk-OUT packet, on the unit in bytes. Each outcome is carried out by a function that asks for just that outcome of these bytes: no
// struct holds the unit's and the packet's while the unit is altered.
ghost use Rattle.std.specs.Prelude.{◌≡◌};
ghost use Rattle.port.specs.Step.{out_packet};
ghost use Rattle.c_promise.specs.Promise.{ComesTo, on_bytes, Returns};

use c_bytes::places::{IN_RECENT_AT, OUT_RECENT_AT, UNIT};
use c_parts::put::{put, put_byte, put_out};
use c_parts::read::{in_of, out_of, part_of};
use c_promise::answer::{done, numbered};
use c_promise::state::sound_state;
use c_promise::types::TmcAnswer;
use out_outcome::outcome::outcome;
use out_step::sides::{absorbed, opened, requested};
use port::types::{Outcome, Port, Remote};
use rules::verdict::Verdict;
use rules::{DONE, TELLS_TRIGGER};
use state_parts::parts::broken;
use state_remote::remote::headed;
use wire::types::Header;
use wire_code::copies::copy_in;
use wire_code::header::HEADER;

// What a packet comes to; it is kept with 1 where the bytes are no sound unit's.
fn outcome_of(u: &[u8; UNIT], s: &[u8]) -> Outcome
    ensures { ComesTo u.now s.now result }
{
    match sound_state(u) {
        Ok(st) => outcome(st, s),
        Err(refusal) => Outcome::Keep {
            number: refusal.number(),
        },
    }
}

fn halts(u: &mut [u8; UNIT], s: &[u8], number: u8) -> TmcAnswer
    requires { ComesTo u.old s.now (Outcome.Halt number) }
    ensures { Returns (on_bytes u.old (out_packet s.now)) u.new result }
{
    let o = out_of(u);
    put_out(u, broken(1, o));
    numbered(number)
}

// Data of the open transfer goes behind what the message holds.
fn data(u: &mut [u8; UNIT], s: &[u8], count: usize) -> TmcAnswer
    requires { ComesTo u.old s.now (Outcome.Data count) }
    ensures { Returns (on_bytes u.old (out_packet s.now)) u.new result }
{
    let o = out_of(u);
    let after = absorbed(o, count);
    copy_in(u, usize::from(o.message.held), s, 0, count);
    put(u, after.message);
    put(u, after.transfer);
    done()
}

// A DEV_DEP_MSG_OUT header with its first data bytes.
fn message(u: &mut [u8; UNIT], s: &[u8], tag: u8, size: u32, end: u8, count: usize) -> TmcAnswer
    requires { ComesTo u.old s.now (Outcome.Accept (Header.Message tag size end) count) }
    ensures { Returns (on_bytes u.old (out_packet s.now)) u.new result }
{
    let o = out_of(u);
    let after = absorbed(opened(o, tag, size as u16, end), count);
    let p: Port = part_of(u);
    let r: Remote = part_of(u);
    copy_in(u, usize::from(o.message.held), s, HEADER, count);
    put(u, after.message);
    put(u, after.transfer);
    put_byte(u, OUT_RECENT_AT, tag);
    put(u, headed(p.ren, r));
    done()
}

// A REQUEST_DEV_DEP_MSG_IN header.
fn request(
    u: &mut [u8; UNIT],
    s: &[u8],
    tag: u8,
    size: u32,
    enabled: u8,
    term: u8,
    count: usize,
) -> TmcAnswer
    requires { ComesTo u.old s.now (Outcome.Accept (Header.Request tag size enabled term) count) }
    ensures { Returns (on_bytes u.old (out_packet s.now)) u.new result }
{
    let b = in_of(u);
    let after = requested(b, tag, size, enabled, term);
    put_byte(u, OUT_RECENT_AT, tag);
    put(u, after.transfer);
    put_byte(u, IN_RECENT_AT, tag);
    done()
}

// A TRIGGER header.
fn trigger(u: &mut [u8; UNIT], s: &[u8], tag: u8, count: usize) -> TmcAnswer
    requires { ComesTo u.old s.now (Outcome.Accept (Header.Trigger tag) count) }
    ensures { Returns (on_bytes u.old (out_packet s.now)) u.new result }
{
    put_byte(u, OUT_RECENT_AT, tag);
    TmcAnswer {
        verdict: Verdict {
            number: DONE,
            tells: TELLS_TRIGGER,
        },
        len: 0,
    }
}

fn accepts(u: &mut [u8; UNIT], s: &[u8], header: Header, count: usize) -> TmcAnswer
    requires { ComesTo u.old s.now (Outcome.Accept header count) }
    ensures { Returns (on_bytes u.old (out_packet s.now)) u.new result }
{
    match header {
        Header::Message { tag, size, end } => message(u, s, tag, size, end, count),
        Header::Request {
            tag,
            size,
            enabled,
            term,
        } => request(u, s, tag, size, enabled, term, count),
        Header::Trigger { tag } => trigger(u, s, tag, count),
    }
}

pub fn bulk_out(u: &mut [u8; UNIT], s: &[u8]) -> TmcAnswer
    ensures { Returns (on_bytes u.old (out_packet s.now)) u.new result }
{
    match outcome_of(u, s) {
        Outcome::Keep { number } => numbered(number),
        Outcome::Halt { number } => halts(u, s, number),
        Outcome::Data { count } => data(u, s, count),
        Outcome::Accept { header, count } => accepts(u, s, header, count),
    }
}

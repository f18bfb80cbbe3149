// A Bulk-IN poll: decided over the state; its packet is cut from the header and the reply's unsent bytes.
ghost use Rattle.std.specs.Prelude.{◌≡◌, ◌+◌, ◌≤◌, ◌<◌, length, drop};
ghost use Rattle.std.proofs.Math.Seq.{paste};
ghost use Rattle.rules.specs.Choice.{pick, gate};
ghost use Rattle.rules.specs.declared.refusal.Refusal.TheVariants.{Unsound};
ghost use Rattle.wire.specs.Header.{HEADER};
ghost use Rattle.port.specs.Parts.{STORE, ASKED};
ghost use Rattle.port.specs.Sound.{sound};
ghost use Rattle.port.specs.Answer.{refuse};
ghost use Rattle.port.specs.In.{up_to, sendable, end_mark, term_mark, fixed, gone, send, next_packet, nothing_to_send, in_rules, poll};
ghost use Rattle.port.specs.Device.{unsent_in};
ghost use Rattle.port.specs.Given.{Hands};
ghost use Rattle.in_step.specs.Poll.{data_count, after_packet, Going, Fits, Starting, CanSend, CanPoll, Cuts};

use crate::types::InPacket;
use port::types::{ASKED, BulkIn, CLOSED, Given, InReply, OWED, SENDING, State};
use rules::DONE;
use rules::refusal::Refusal;
use rules::verdict::only;
use state_parts::given::refused;
use state_parts::parts::{carrying, sending_in, shut, with_in};
use state_sound::sound::sound;
use wire_code::copies::copy_in;
use wire_code::header::{D0, D1, HEADER, write_header};

// No packet is owed, and no transfer is open or no reply is stored.
fn nothing_to_send(b: BulkIn) -> bool
    ensures { result ≡ nothing_to_send b }
{
    match b.transfer.phase {
        OWED => false,
        CLOSED => true,
        SENDING => false,
        _ => b.reply.unsent == 0,
    }
}

// The first of 2 to 5 that applies to a poll into a buffer of `room` bytes refuses it.
#[tactic(auto, using(rules::proofs::Choice::picks))]
pub fn in_gate(st: State, room: usize) -> Result<(), Refusal>
    ensures { result ≡ gate (in_rules st room) }
{
    let b = st.small.bulkin;
    if st.small.port.configured != 1 {
        return Err(Refusal::Unconfigured);
    }
    if room < usize::from(st.small.port.setting.packet) {
        return Err(Refusal::WrongSize);
    }
    if b.halted == 1 {
        return Err(Refusal::Halted);
    }
    if nothing_to_send(b) {
        return Err(Refusal::Wait);
    }
    Ok(())
}

// How many bytes go up to and with the first `char`: all where there is none. They are counted, as the library's position counts those in
// front of it, and none where it is missing.
fn up_to(s: &[u8], char: u8) -> usize
    ensures { result ≡ up_to char s.now }
{
    let mut n = 0;
    for &b in s {
        n += 1;
        if b == char {
            return n;
        }
    }
    n
}

// N, the data bytes of a transfer that starts.
fn sendable(reply: &[u8; 1024], b: BulkIn) -> usize
    requires { b.reply.at + b.reply.unsent ≤ STORE }
    ensures { result ≡ sendable b (unsent_in b reply.now) }
{
    let most = usize::from(b.transfer.asked.min(b.reply.unsent));
    if b.transfer.enabled == 1 {
        let at = usize::from(b.reply.at);
        up_to(&reply[at..at + most], b.transfer.term)
    } else {
        most
    }
}

// D0, where N is all that is left.
fn end_mark(b: BulkIn, n: usize) -> u8
    ensures { (result ≡ end_mark b n) × (result < 2) }
{
    if n == usize::from(b.reply.unsent) {
        D0
    } else {
        0
    }
}

// D1, where the last of the N bytes is an enabled TermChar.
fn term_mark(reply: &[u8; 1024], b: BulkIn, n: usize) -> u8
    requires { (0 < n) × (n ≤ b.reply.unsent) × (b.reply.at + b.reply.unsent ≤ STORE) }
    ensures { (result ≡ term_mark b (unsent_in b reply.now) n) × (result < 3) }
{
    let last = usize::from(b.reply.at) + (n - 1);
    if b.transfer.enabled == 1 && reply[last] == b.transfer.term {
        D1
    } else {
        0
    }
}

// `count` data bytes have gone.
fn gone(b: BulkIn, count: usize) -> BulkIn
    requires { Going b × (count ≤ b.transfer.left) }
    ensures { result ≡ gone b count }
{
    let n = count as u16;
    let reply = InReply {
        at: b.reply.at + n,
        unsent: b.reply.unsent - n,
    };
    let left = b.transfer.left - n;
    let sent = b.transfer.sent + n;
    carrying(b, reply, sending_in(b.transfer.tag, left, sent))
}

// What a packet of at most `p` bytes leaves of the side b, once `count` data bytes have gone behind `front` header bytes.
#[tactic(auto, using(rules::proofs::Choice::picks), unfolding(crate::specs::Poll::after_packet))]
fn after_packet(p: usize, b: BulkIn, front: usize, count: usize) -> InPacket
    requires { Going b × (count ≤ b.transfer.left) × (front ≤ HEADER) }
    ensures { result ≡ after_packet p b front count }
{
    let after = gone(b, count);
    let len = front + count;
    InPacket {
        side: if len < p { shut(after) } else { after },
        len,
    }
}

// The data of a packet, behind its `front` header bytes. The reply, the side and the lent buffer stay apart: no two of them stand in one
// place of a unit, and the side is altered on the way.
fn put_data(reply: &[u8; 1024], p: usize, b: BulkIn, front: usize, buf: &mut [u8]) -> InPacket
    requires { Going b × Fits p front (length buf.old) × (front ≤ HEADER) }
    ensures { (result ≡ after_packet p b front (data_count p b front))
        × (buf.new ≡ paste buf.old front (drop b.reply.at reply.now) (data_count p b front)) }
{
    let count = usize::from(b.transfer.left).min(p - front);
    copy_in(buf, front, reply, usize::from(b.reply.at), count);
    after_packet(p, b, front, count)
}

// The first packet of a transfer: it has the header, and fixes N.
fn first_packet(reply: &[u8; 1024], p: usize, b: BulkIn, buf: &mut [u8]) -> InPacket
    requires { (b.transfer.phase ≡ ASKED) × Starting b × Fits p HEADER (length buf.old) }
    ensures { Cuts (send p b (unsent_in b reply.now)) result buf.old buf.new }
{
    let n = sendable(reply, b);
    let attributes = end_mark(b, n) + term_mark(reply, b, n);
    write_header(buf, b.transfer.tag, n as u32, attributes);
    let started = carrying(b, b.reply, sending_in(b.transfer.tag, n as u16, 0));
    put_data(reply, p, started, HEADER, buf)
}

// A packet of the open transfer.
fn packet(reply: &[u8; 1024], p: usize, b: BulkIn, buf: &mut [u8]) -> InPacket
    requires { CanSend p b (length buf.old) }
    ensures { Cuts (send p b (unsent_in b reply.now)) result buf.old buf.new }
{
    if b.transfer.phase == ASKED {
        first_packet(reply, p, b, buf)
    } else {
        put_data(reply, p, b, 0, buf)
    }
}

// The next packet of at most `p` bytes, cut from a store that begins with the reply.
pub fn next_packet(reply: &[u8; 1024], p: usize, b: BulkIn, buf: &mut [u8]) -> InPacket
    requires { CanPoll p b (length buf.old) }
    ensures { Cuts (next_packet p b (unsent_in b reply.now)) result buf.old buf.new }
{
    if b.transfer.phase == OWED {
        InPacket {
            side: shut(b),
            len: 0,
        }
    } else {
        packet(reply, p, b, buf)
    }
}

// The step that the by-value call and the in-place form share.
pub fn poll_step(reply: &[u8; 1024], st: State, b: &mut [u8]) -> Given
    ensures { Hands (pick (sound st) (poll st (unsent_in st.small.bulkin reply.now) (length b.old)) (refuse st Unsound)) result
        b.old b.new }
{
    if !sound(st) {
        return refused(st, Refusal::Unsound);
    }
    if let Err(refusal) = in_gate(st, b.len()) {
        return refused(st, refusal);
    }
    let size = usize::from(st.small.port.setting.packet);
    let packet = next_packet(reply, size, st.small.bulkin, b);
    Given {
        state: with_in(st, packet.side),
        verdict: only(DONE),
        len: packet.len,
    }
}

// What a Bulk-OUT packet comes to, decided over the state.
ghost use Rattle.std.specs.Prelude.{◌≡◌, ℕ, ◌<◌};
ghost use Rattle.rules.specs.Choice.{gate};
ghost use Rattle.wire.specs.Header.{aligned, read_header};
ghost use Rattle.port.specs.Parts.{unfinished};
ghost use Rattle.port.specs.Out.{halt_of, wrong_length, more, request_out_of_turn, out_of_turn, data_length, header_rules, header_says, out_rules, outcome};

use port::types::{BulkIn, BulkOut, CLOSED, Outcome, STORE, State};
use rules::DONE;
use rules::refusal::Refusal;
use wire::types::Header;
use wire_code::header::{HEADER, not_in_fours, read_header};

// A store's bytes, as a TransferSize.
pub const MOST: u32 = STORE as u32;

// A refusal that halts Bulk-OUT.
fn halt_of(refusal: Refusal) -> Outcome
    ensures { result ≡ halt_of refusal }
{
    Outcome::Halt {
        number: refusal.number(),
    }
}

// As many data bytes, up to a multiple of four.
fn aligned(n: usize) -> usize
    requires { n < 65536 }
    ensures { result ≡ aligned n }
{
    ((n + 3) >> 2) << 2
}

// A packet of n bytes where `due` are to come: it has more, or it is short and has fewer.
#[tactic(auto, using(rules::proofs::Choice::bools))]
fn wrong_length(p: usize, n: usize, due: usize) -> bool
    ensures { result ≡ wrong_length p n due }
{
    due < n || n < due && n < p
}

// A packet of an open transfer.
#[tactic(auto, using(rules::proofs::Choice::picks), unfolding(port::specs::Out::more))]
fn more(p: usize, left: u16, s: &[u8]) -> Outcome
    ensures { result ≡ more p left s.now }
{
    if not_in_fours(s) {
        return halt_of(Refusal::NotInFours);
    }
    let due = usize::from(left);
    if wrong_length(p, s.len(), aligned(due)) {
        return halt_of(Refusal::WrongLength);
    }
    Outcome::Data {
        count: due.min(s.len()),
    }
}

#[tactic(auto, using(rules::proofs::Choice::bools))]
fn unfinished(o: BulkOut) -> bool
    ensures { result ≡ unfinished o }
{
    o.message.ready == 0 && o.message.held != 0
}

#[tactic(auto, using(rules::proofs::Choice::bools))]
fn request_out_of_turn(o: BulkOut, b: BulkIn) -> bool
    ensures { result ≡ request_out_of_turn o b }
{
    b.transfer.phase != CLOSED || unfinished(o)
}

// A header that comes out of turn.
fn out_of_turn(o: BulkOut, b: BulkIn, h: Header) -> bool
    ensures { result ≡ out_of_turn o b h }
{
    match h {
        Header::Message { .. } => false,
        Header::Request { .. } => request_out_of_turn(o, b),
        Header::Trigger { .. } => unfinished(o),
    }
}

// The data bytes of a header's transfer.
fn data_length(h: Header) -> u32
    ensures { result ≡ data_length h }
{
    match h {
        Header::Message { size, .. } => size,
        Header::Request { .. } | Header::Trigger { .. } => 0,
    }
}

// The first of 13, 12 and 11 that applies to a header refuses it.
#[tactic(auto, using(rules::proofs::Choice::picks))]
fn header_fault(st: State, s: &[u8], h: Header) -> Result<(), Refusal>
    ensures { result ≡ gate (header_rules st s.now h) }
{
    let o = st.small.bulkout;
    if out_of_turn(o, st.small.bulkin, h) {
        return Err(Refusal::OutOfTurn);
    }
    let size = data_length(h);
    if MOST < size || MOST < u32::from(o.message.held) + size {
        return Err(Refusal::TooLong);
    }
    let due = HEADER + aligned(size as usize);
    if wrong_length(usize::from(st.small.port.setting.packet), s.len(), due) {
        return Err(Refusal::WrongLength);
    }
    Ok(())
}

// A packet between transfers that is not empty: its header, or the fault that halts, by the `let .. else` that document 01 asks for.
fn header_says(st: State, s: &[u8]) -> Outcome
    ensures { result ≡ header_says st s.now (read_header s.now) }
{
    let read = read_header(s);
    let Ok(header) = read else {
        return halt_of(read.unwrap_err());
    };
    if let Err(refusal) = header_fault(st, s, header) {
        return halt_of(refusal);
    }
    let size = data_length(header) as usize;
    Outcome::Accept {
        header,
        count: size.min(s.len() - HEADER),
    }
}

// The first of 2 to 5 that applies to a packet of n bytes refuses it.
#[tactic(auto, using(rules::proofs::Choice::picks))]
fn out_gate(st: State, n: usize) -> Result<(), Refusal>
    ensures { result ≡ gate (out_rules st n) }
{
    let o = st.small.bulkout;
    if st.small.port.configured != 1 {
        return Err(Refusal::Unconfigured);
    }
    if usize::from(st.small.port.setting.packet) < n {
        return Err(Refusal::WrongSize);
    }
    if o.halted == 1 {
        return Err(Refusal::Halted);
    }
    if o.message.ready == 1 {
        return Err(Refusal::Wait);
    }
    Ok(())
}

// What a packet comes to on a sound unit.
#[tactic(auto, using(crate::proofs::Outcomes::outcome_ways))]
pub fn outcome(st: State, s: &[u8]) -> Outcome
    ensures { result ≡ outcome st s.now }
{
    if let Err(refusal) = out_gate(st, s.len()) {
        return Outcome::Keep {
            number: refusal.number(),
        };
    }
    let left = st.small.bulkout.transfer.left;
    if left != 0 {
        return more(usize::from(st.small.port.setting.packet), left, s);
    }
    if s.is_empty() {
        return Outcome::Keep { number: DONE };
    }
    header_says(st, s)
}

// What an answered row does to the state, and to the side of an endpoint.
ghost use Rattle.std.specs.Prelude.{◌≡◌, ℕ};
ghost use Rattle.port.specs.Rows.{owing, cleared_in, clear_feature_out, clear_feature_in, aborted_out, aborted_in, clearing, ren_control, effected};

use interrupt_step::part::status_queued;
use port::types::{BulkIn, BulkOut, CLOSED, Effect, OWED, Split, State};
use state_parts::parts::{
    broken, closed_in, empty_in, empty_out, is_open_in, keeps_halt, owed_in, shut, with_in,
    with_in_halted, with_interrupt, with_interrupt_halted, with_out, with_port, with_remote,
    with_ren, with_split,
};
use state_remote::remote::{local_now, locked_out, to_local};
use wire::types::Endpoint;

// Nothing is stored, and the open transfer's empty packet is owed.
pub fn owing(b: BulkIn, recent: u8) -> BulkIn
    ensures { result ≡ owing b recent }
{
    empty_in(owed_in(b.transfer.tag), b.halted, recent)
}

// Bulk-IN behind INITIATE_CLEAR.
#[tactic(auto, using(rules::proofs::Choice::picks))]
pub fn cleared_in(b: BulkIn) -> BulkIn
    ensures { result ≡ cleared_in b }
{
    if is_open_in(b) {
        owing(b, 0)
    } else {
        empty_in(closed_in(), b.halted, 0)
    }
}

// Each side behind CLEAR_FEATURE.
#[tactic(auto, using(rules::proofs::Choice::picks), unfolding(port::specs::Rows::clear_feature_out))]
pub fn clear_feature_out(split: Split, o: BulkOut) -> BulkOut
    ensures { result ≡ clear_feature_out split o }
{
    let halted = if keeps_halt(split) { o.halted } else { 0 };
    broken(halted, o)
}

#[tactic(auto, using(rules::proofs::Choice::picks), unfolding(port::specs::Rows::clear_feature_in))]
pub fn clear_feature_in(b: BulkIn) -> BulkIn
    ensures { result ≡ clear_feature_in b }
{
    match b.transfer.phase {
        OWED => shut(with_in_halted(b, 0)),
        CLOSED => with_in_halted(b, 0),
        _ => empty_in(closed_in(), 0, b.recent),
    }
}

fn aborted_out(st: State) -> State
    ensures { result ≡ aborted_out st }
{
    let o = st.small.bulkout;
    let split = Split::AbortOut {
        count: o.transfer.got,
    };
    with_split(with_out(st, broken(1, o)), split)
}

fn aborted_in(st: State) -> State
    ensures { result ≡ aborted_in st }
{
    let b = st.small.bulkin;
    let split = Split::AbortIn {
        count: b.transfer.sent,
    };
    with_split(with_in(st, owing(b, b.recent)), split)
}

#[tactic(auto, unfolding(port::specs::Rows::clearing))]
fn clearing(st: State) -> State
    ensures { result ≡ clearing st }
{
    let dropped = with_in(with_out(st, empty_out(1, 0)), cleared_in(st.small.bulkin));
    with_split(dropped, Split::Clear)
}

#[tactic(auto, using(rules::proofs::Choice::picks))]
fn ren_control(st: State, on: u8) -> State
    ensures { result ≡ ren_control st on }
{
    if on == 1 {
        with_port(st, with_ren(st.small.port, 1))
    } else {
        local_now(st)
    }
}

#[tactic(auto, unfolding(port::specs::Rows::effected))]
fn clears_halt(st: State, endpoint: Endpoint) -> State
    ensures { result ≡ effected st (Effect.ClearsHalt endpoint) }
{
    match endpoint {
        Endpoint::Out => with_out(st, clear_feature_out(st.split, st.small.bulkout)),
        Endpoint::In => with_in(st, clear_feature_in(st.small.bulkin)),
        Endpoint::Interrupt => {
            let i = st.small.interrupt;
            with_interrupt(st, with_interrupt_halted(i, 0))
        }
    }
}

#[tactic(auto, unfolding(port::specs::Rows::effected))]
fn sets_halt(st: State, endpoint: Endpoint) -> State
    ensures { result ≡ effected st (Effect.SetsHalt endpoint) }
{
    match endpoint {
        Endpoint::Out => with_out(st, broken(1, st.small.bulkout)),
        Endpoint::In => with_in(st, with_in_halted(st.small.bulkin, 1)),
        Endpoint::Interrupt => {
            let i = st.small.interrupt;
            with_interrupt(st, with_interrupt_halted(i, 1))
        }
    }
}

#[tactic(auto, unfolding(port::specs::Rows::effected))]
pub fn effected(st: State, effect: Effect) -> State
    ensures { result ≡ effected st effect }
{
    let i = st.small.interrupt;
    match effect {
        Effect::Stays => st,
        Effect::AbortsOut => aborted_out(st),
        Effect::AbortsIn => aborted_in(st),
        Effect::Clears => clearing(st),
        Effect::EndsSplit => with_split(st, Split::None),
        Effect::SetsRen { on } => ren_control(st, on),
        Effect::GoesToLocal => with_remote(st, to_local(st.remote)),
        Effect::LocksOut => with_remote(st, locked_out(st.small.port.ren, st.remote)),
        Effect::ClearsHalt { endpoint } => clears_halt(st, endpoint),
        Effect::SetsHalt { endpoint } => sets_halt(st, endpoint),
        Effect::Queues { tag } => with_interrupt(st, status_queued(i, tag)),
    }
}

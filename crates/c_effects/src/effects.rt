// What an answered row does to the unit in bytes.
ghost use Rattle.std.specs.Prelude.{◌≤◌, length};
ghost use Rattle.c_bytes.specs.Layout.{UNIT};
ghost use Rattle.c_effects.specs.Does.{Does};

use c_bytes::places::{IN_HALTED_AT, INTERRUPT_HALTED_AT, UNIT};
use c_parts::put::{put, put_byte, put_in, put_out};
use c_parts::read::{in_of, out_of, part_of};
use interrupt_step::part::status_queued;
use port::types::{Effect, InterruptIn, Port, Remote, Split};
use setup_step::effects::{clear_feature_in, clear_feature_out, cleared_in, owing};
use state_parts::parts::{broken, empty_out, with_ren};
use state_remote::remote::{locked_out, to_local};
use wire::types::Endpoint;

#[tactic(auto, using(crate::proofs::Written::aborts_out))]
fn aborts_out(u: &mut [u8; UNIT])
    ensures { Does u.old Effect.AbortsOut u.new }
{
    let o = out_of(u);
    let count = o.transfer.got;
    put_out(u, broken(1, o));
    put(u, Split::AbortOut { count });
}

fn aborts_in(u: &mut [u8; UNIT])
    ensures { Does u.old Effect.AbortsIn u.new }
{
    let b = in_of(u);
    let count = b.transfer.sent;
    put_in(u, owing(b, b.recent));
    put(u, Split::AbortIn { count });
}

fn clears(u: &mut [u8; UNIT])
    ensures { Does u.old Effect.Clears u.new }
{
    let b = in_of(u);
    put_out(u, empty_out(1, 0));
    put_in(u, cleared_in(b));
    put(u, Split::Clear);
}

#[tactic(auto, using(crate::proofs::Written::ren_on, crate::proofs::Written::ren_off))]
fn sets_ren(u: &mut [u8; UNIT], on: u8)
    ensures { Does u.old (Effect.SetsRen on) u.new }
{
    let p: Port = part_of(u);
    if on == 1 {
        put(u, with_ren(p, 1));
    } else {
        put(u, with_ren(p, 0));
        put(u, Remote::Locs);
    }
}

#[tactic(auto, using(crate::proofs::Written::goes_to_local))]
fn goes_to_local(u: &mut [u8; UNIT])
    ensures { Does u.old Effect.GoesToLocal u.new }
{
    let r: Remote = part_of(u);
    put(u, to_local(r));
}

#[tactic(auto, using(crate::proofs::Written::locks_out))]
fn locks_out(u: &mut [u8; UNIT])
    ensures { Does u.old Effect.LocksOut u.new }
{
    let p: Port = part_of(u);
    let r: Remote = part_of(u);
    put(u, locked_out(p.ren, r));
}

#[tactic(auto, using(crate::proofs::Written::clears_out, crate::proofs::Written::clears_interrupt))]
fn clears_halt(u: &mut [u8; UNIT], endpoint: Endpoint)
    ensures { Does u.old (Effect.ClearsHalt endpoint) u.new }
{
    match endpoint {
        Endpoint::Out => {
            let o = out_of(u);
            let split: Split = part_of(u);
            put_out(u, clear_feature_out(split, o));
        }
        Endpoint::In => {
            let b = in_of(u);
            put_in(u, clear_feature_in(b));
        }
        Endpoint::Interrupt => put_byte(u, INTERRUPT_HALTED_AT, 0),
    }
}

#[tactic(auto, using(crate::proofs::Written::sets_out, crate::proofs::Written::sets_in, crate::proofs::Written::sets_interrupt))]
fn sets_halt(u: &mut [u8; UNIT], endpoint: Endpoint)
    ensures { Does u.old (Effect.SetsHalt endpoint) u.new }
{
    match endpoint {
        Endpoint::Out => {
            let o = out_of(u);
            put_out(u, broken(1, o));
        }
        Endpoint::In => put_byte(u, IN_HALTED_AT, 1),
        Endpoint::Interrupt => put_byte(u, INTERRUPT_HALTED_AT, 1),
    }
}

#[tactic(auto, using(crate::proofs::Written::queues))]
fn queues(u: &mut [u8; UNIT], tag: u8)
    ensures { Does u.old (Effect.Queues tag) u.new }
{
    let i: InterruptIn = part_of(u);
    put(u, status_queued(i, tag));
}

#[tactic(auto, using(crate::proofs::Written::stays, crate::proofs::Written::ends_split))]
fn carry_out(u: &mut [u8; UNIT], effect: Effect)
    ensures { Does u.old effect u.new }
{
    match effect {
        Effect::Stays => (),
        Effect::AbortsOut => aborts_out(u),
        Effect::AbortsIn => aborts_in(u),
        Effect::Clears => clears(u),
        Effect::EndsSplit => put(u, Split::None),
        Effect::SetsRen { on } => sets_ren(u, on),
        Effect::GoesToLocal => goes_to_local(u),
        Effect::LocksOut => locks_out(u),
        Effect::ClearsHalt { endpoint } => clears_halt(u, endpoint),
        Effect::SetsHalt { endpoint } => sets_halt(u, endpoint),
        Effect::Queues { tag } => queues(u, tag),
    }
}

// What stands behind the unit's bytes stays.
#[tactic(auto, using(crate::proofs::Written::past_unit))]
pub fn put_effect(u: &mut [u8], effect: Effect)
    requires { UNIT ≤ length u.old }
    ensures { Does u.old effect u.new }
{
    if let Some(unit) = u.first_chunk_mut::<UNIT>() {
        carry_out(unit, effect);
    }
}

// The aborts of both sides: INITIATE_ABORT and CHECK_ABORT.
ghost use Rattle.std.specs.Prelude.{◌≡◌, ◌∷◌, [], ℕ};
ghost use Rattle.rules.specs.Answers.{SUCCESS};
ghost use Rattle.rules.specs.Choice.{gate, decide};
ghost use Rattle.port.specs.Rows.{abort_rules, answering, reacts, in_tag, wrong_split, abort_ends, initiate_abort_out, initiate_abort_in};
ghost use Rattle.port.specs.Rows.{check_abort_out, check_abort_in};
ghost use Rattle.setup_splits.specs.Control.{control_of};

use crate::reacts::{reacts, reacts_abort};
use crate::types::Control;
use port::types::{BulkIn, Effect, OWED, Split, State};
use rules::{
    FAILED, PENDING, SPLIT_IN_PROGRESS, SPLIT_NOT_IN_PROGRESS, SUCCESS, TRANSFER_NOT_IN_PROGRESS,
};
use state_parts::parts::{is_none, is_open_in, is_open_out};

// The first of 83, 80 and 81 that applies to an INITIATE_ABORT is its status: the byte that the answer has.
#[tactic(auto, using(rules::proofs::Choice::picks))]
fn abort_gate(split: Split, is_open: bool, own: u8, tag: u8) -> Result<(), u8>
    ensures { result ≡ gate (abort_rules split is_open own tag) }
{
    if !is_none(split) {
        return Err(SPLIT_IN_PROGRESS);
    }
    if !is_open {
        return Err(FAILED);
    }
    if tag != own {
        return Err(TRANSFER_NOT_IN_PROGRESS);
    }
    Ok(())
}

// INITIATE_ABORT of the side whose tag is `own`.
fn initiate_abort(split: Split, is_open: bool, own: u8, tag: u8, effect: Effect) -> Control
    ensures { result ≡ control_of (decide (λ status. answering (status ∷ own ∷ []))
        (abort_rules split is_open own tag) (reacts effect (SUCCESS ∷ own ∷ []))) }
{
    match abort_gate(split, is_open, own, tag) {
        Ok(()) => reacts(effect, [SUCCESS, own]),
        Err(status) => reacts(Effect::Stays, [status, own]),
    }
}

#[tactic(auto, unfolding(port::specs::Rows::initiate_abort_out))]
pub fn initiate_abort_out(st: State, tag: u8) -> Control
    ensures { result ≡ control_of (initiate_abort_out st tag) }
{
    let o = st.small.bulkout;
    initiate_abort(st.split, is_open_out(o), o.recent, tag, Effect::AbortsOut)
}

// The open transfer's tag, else the most recent one.
#[tactic(auto, using(rules::proofs::Choice::picks))]
fn in_tag(b: BulkIn) -> u8
    ensures { result ≡ in_tag b }
{
    if is_open_in(b) {
        b.transfer.tag
    } else {
        b.recent
    }
}

#[tactic(auto, unfolding(port::specs::Rows::initiate_abort_in))]
pub fn initiate_abort_in(st: State, tag: u8) -> Control
    ensures { result ≡ control_of (initiate_abort_in st tag) }
{
    let b = st.small.bulkin;
    initiate_abort(st.split, is_open_in(b), in_tag(b), tag, Effect::AbortsIn)
}

fn wrong_split() -> Control
    ensures { result ≡ control_of wrong_split }
{
    reacts_abort(Effect::Stays, SPLIT_NOT_IN_PROGRESS, 0, 0)
}

// The split ends, with its count.
fn abort_ends(count: u16) -> Control
    ensures { result ≡ control_of (abort_ends count) }
{
    reacts_abort(Effect::EndsSplit, SUCCESS, 0, count)
}

#[tactic(auto, unfolding(port::specs::Rows::check_abort_out))]
pub fn check_abort_out(split: Split) -> Control
    ensures { result ≡ control_of (check_abort_out split) }
{
    match split {
        Split::AbortOut { count } => abort_ends(count),
        Split::None | Split::AbortIn { .. } | Split::Clear => wrong_split(),
    }
}

// CHECK of the abort-IN in progress: pending while its packet is owed.
#[tactic(auto, using(crate::proofs::SplitLaws::splits))]
fn abort_in_status(b: BulkIn, count: u16) -> Control
    ensures { result ≡ control_of (check_abort_in b (Split.AbortIn count)) }
{
    if b.transfer.phase == OWED {
        reacts_abort(Effect::Stays, PENDING, 1, 0)
    } else {
        abort_ends(count)
    }
}

#[tactic(auto, unfolding(port::specs::Rows::check_abort_in))]
pub fn check_abort_in(b: BulkIn, split: Split) -> Control
    ensures { result ≡ control_of (check_abort_in b split) }
{
    match split {
        Split::AbortIn { count } => abort_in_status(b, count),
        Split::None | Split::AbortOut { .. } | Split::Clear => wrong_split(),
    }
}

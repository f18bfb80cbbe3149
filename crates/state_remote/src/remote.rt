// The remote/local table, a column to a function as it stands there, and what gives LOCS and REN off.
ghost use Rattle.std.specs.Prelude.{◌≡◌, ℕ};
ghost use Rattle.port.specs.Remote.{to_local, by_panel, locked_out, with_ren_on, local_now, headed};

use port::types::{Remote, State};
use state_parts::parts::{with_port, with_remote, with_ren};

// A DEV_DEP_MSG_OUT header moves the remote/local state while REN is on.
#[tactic(auto, using(rules::proofs::Choice::picks), unfolding(port::specs::Remote::with_ren_on))]
pub fn headed(ren: u8, r: Remote) -> Remote
    ensures { result ≡ with_ren_on headed ren r }
{
    if ren == 1 {
        match r {
            Remote::Locs | Remote::Rems => Remote::Rems,
            Remote::Lwls | Remote::Rwls => Remote::Rwls,
        }
    } else {
        r
    }
}

pub fn to_local(r: Remote) -> Remote
    ensures { result ≡ to_local r }
{
    match r {
        Remote::Locs | Remote::Rems => Remote::Locs,
        Remote::Lwls | Remote::Rwls => Remote::Lwls,
    }
}

pub fn by_panel(r: Remote) -> Remote
    ensures { result ≡ by_panel r }
{
    match r {
        Remote::Locs | Remote::Rems => Remote::Locs,
        Remote::Lwls => Remote::Lwls,
        Remote::Rwls => Remote::Rwls,
    }
}

#[tactic(auto, using(rules::proofs::Choice::picks), unfolding(port::specs::Remote::with_ren_on))]
pub fn locked_out(ren: u8, r: Remote) -> Remote
    ensures { result ≡ with_ren_on locked_out ren r }
{
    if ren == 1 {
        match r {
            Remote::Locs | Remote::Lwls => Remote::Lwls,
            Remote::Rems | Remote::Rwls => Remote::Rwls,
        }
    } else {
        r
    }
}

// LOCS and REN off.
#[tactic(auto, unfolding(port::specs::Remote::local_now))]
pub fn local_now(st: State) -> State
    ensures { result ≡ local_now st }
{
    with_remote(with_port(st, with_ren(st.small.port, 0)), Remote::Locs)
}

// What a call hands back with no bytes: why it is refused, or that it is done; and what it leaves that stores none. A step leaves by these
// behind two guards, soundness and its gate: one function of both, given the gate as a closure, would make no step shorter.
ghost use Rattle.std.specs.Prelude.{◌≡◌, []};
ghost use Rattle.port.specs.Answer.{refuse, says};
ghost use Rattle.port.specs.Out.{plain};
ghost use Rattle.port.specs.Given.{given_of};

use port::types::{Given, Plan, State};
use rules::DONE;
use rules::refusal::Refusal;
use rules::verdict::{Verdict, only};

pub fn refused(state: State, refusal: Refusal) -> Given
    ensures { result ≡ given_of (refuse state refusal) }
{
    Given {
        state,
        verdict: Verdict::from(refusal),
        len: 0,
    }
}

pub fn done(state: State) -> Given
    ensures { result ≡ given_of (says state []) }
{
    Given {
        state,
        verdict: only(DONE),
        len: 0,
    }
}

pub fn plain(state: State, verdict: Verdict) -> Plan
    ensures { result ≡ plain state verdict }
{
    Plan {
        state,
        verdict,
        from: 0,
        count: 0,
    }
}

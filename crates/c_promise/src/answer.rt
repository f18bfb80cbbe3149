// Answers with no bytes: of C's type, as those of state_parts are of a state's.
ghost use Rattle.std.specs.Prelude.{◌≡◌, ℕ};
ghost use Rattle.rules.specs.Answers.{DONE, number_of};
ghost use Rattle.port.specs.Answer.{numbered};
ghost use Rattle.c_promise.specs.Promise.{answer_of};

use crate::types::TmcAnswer;
use rules::DONE;
use rules::refusal::Refusal;
use rules::verdict::only;

// A number that tells nothing.
pub fn numbered(n: u8) -> TmcAnswer
    ensures { result ≡ answer_of (numbered n) }
{
    TmcAnswer {
        verdict: only(n),
        len: 0,
    }
}

pub fn refused(refusal: Refusal) -> TmcAnswer
    ensures { result ≡ answer_of (numbered (number_of refusal)) }
{
    numbered(refusal.number())
}

pub fn done() -> TmcAnswer
    ensures { result ≡ answer_of (numbered DONE) }
{
    numbered(DONE)
}

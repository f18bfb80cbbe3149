// What every answer says beside its bytes.
ghost use Rattle.std.specs.Prelude.{◌≡◌, ℕ};
ghost use Rattle.rules.specs.Answers.{only, refusing};

use crate::TELLS_NOTHING;
use crate::refusal::Refusal;

// The number of an answer, DONE among them, and what it tells: what C is given, and what an answer of the definitions has.
#[repr(C)]
#[derive(Clone, Copy)]
pub struct Verdict {
    pub number: u8,
    pub tells: u8,
}

// A number that tells nothing.
pub fn only(number: u8) -> Verdict
    ensures { result ≡ only number }
{
    Verdict {
        number,
        tells: TELLS_NOTHING,
    }
}

// A refusal's.
impl From<Refusal> for Verdict {
    ghost from_gives = { λ r v. v ≡ refusing r };

    fn from(refusal: Refusal) -> Verdict {
        only(refusal.number())
    }
}

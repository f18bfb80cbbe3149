// Why a call is refused.
ghost use Rattle.std.specs.Prelude.{◌≡◌};
ghost use Rattle.rules.specs.Answers.{number_of};

// Document 01's numbers: a unit that is not sound, and so on down its table. 14 is free.
#[derive(Clone, Copy, Debug, PartialEq, Eq)]
pub enum Refusal {
    Unsound = 1,
    Unconfigured = 2,
    WrongSize = 3,
    Halted = 4,
    Wait = 5,
    NotInFours = 6,
    ShortHeader = 7,
    BadTag = 8,
    UnknownMsgId = 9,
    Reserved = 10,
    WrongLength = 11,
    TooLong = 12,
    OutOfTurn = 13,
    UnknownRow = 15,
    NotNow = 16,
}

impl Refusal {
    pub fn number(self) -> u8
        ensures { result ≡ number_of self }
    {
        self as u8
    }
}

// The names of the calls, and how many words stand behind each.
ghost use Rattle.std.specs.Prelude.{◌≡◌, ◌≤◌};
ghost use Rattle.text_lines.specs.Lines.{row, name_of};

#[derive(Clone, Copy, Debug, PartialEq, Eq)]
pub enum Name {
    Power,
    Setup,
    Out,
    In,
    Interrupt,
    Take,
    Offer,
    Status,
    Local,
    Reset,
    Suspend,
    State,
    More,
}

// The calls by their names. A table, since the proof of a `match` on the names did not close: each way past a byte is a goal.
const NAMES: [(&[u8], Name); 13] = [
    (b"power", Name::Power),
    (b"setup", Name::Setup),
    (b"out", Name::Out),
    (b"in", Name::In),
    (b"in3", Name::Interrupt),
    (b"take", Name::Take),
    (b"offer", Name::Offer),
    (b"status", Name::Status),
    (b"local", Name::Local),
    (b"reset", Name::Reset),
    (b"suspend", Name::Suspend),
    (b"state", Name::State),
    (b"more", Name::More),
];

// The call that a word names, if it names one.
pub fn name_of(word: &[u8]) -> Option<Name>
    ensures { result ≡ name_of word.now }
{
    let (_, call) = NAMES.iter().find(|(name, _)| word == *name)?;
    Some(*call)
}

// How many words stand behind a name.
#[derive(Clone, Copy)]
pub struct Words {
    pub least: usize,
    pub most: usize,
}

impl Name {
    pub fn words(self) -> Words
        ensures { (result.least ≡ (row self).least) × (result.most ≡ (row self).most) × (result.most ≤ 2) }
    {
        let (least, most) = match self {
            Name::Setup => (1, 2),
            Name::Power | Name::Out | Name::Offer | Name::Status => (1, 1),
            Name::In | Name::Interrupt | Name::Take => (0, 1),
            Name::Local | Name::Reset | Name::Suspend | Name::State | Name::More => (0, 0),
        };
        Words { least, most }
    }
}

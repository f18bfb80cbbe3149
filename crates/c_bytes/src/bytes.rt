// The bytes of each part of a unit: how many there are, they from the part, and the part from them.
ghost use Rattle.std.specs.Prelude.{◌≡◌, ℕ, [], ◌∷◌, ◌+◌, ◌/◌, ◌%◌, ◌≤◌, length, refl};
ghost use Rattle.std.proofs.Common.{rules, ap, ◌∙◌, drop};
ghost use Rattle.std.proofs.lemmas.List.{get_or-take, get_or-drop};
ghost use Rattle.wire.specs.Bytes.{byte, number2};
ghost use Rattle.port.specs.Parts.{port_of, out_of, in_of, interrupt_of};
ghost use Rattle.c_bytes.specs.Layout.{PORT_AT, OUT_MESSAGE_AT, OUT_TRANSFER_AT, IN_REPLY_AT, IN_TRANSFER_AT, INTERRUPT_AT, SPLIT_AT, REMOTE_AT};
ghost use Rattle.c_bytes.specs.Layout.{remote_number, port_bytes, out_message_bytes, out_transfer_bytes, in_reply_bytes, in_transfer_bytes};
ghost use Rattle.c_bytes.specs.Layout.{interrupt_bytes, split_bytes, remote_of, port_in, out_message_in, out_transfer_in, in_reply_in, in_transfer_in};
ghost use Rattle.c_bytes.specs.Layout.{interrupt_in, split_in, is_split, state_in};

use crate::part::Part;
use crate::places::{
    IN_REPLY_AT, IN_TRANSFER_AT, INTERRUPT_AT, OUT_MESSAGE_AT, OUT_TRANSFER_AT, PORT_AT, REMOTE_AT,
    SPLIT_AT,
};
use port::types::{
    InReply, InTransfer, InterruptIn, Notify, OutMessage, OutTransfer, Port, Remote, Setting, Split,
};
use wire_code::numbers::{high, le_u16, low};

pub const PORT: usize = 4;

pub const OUT_MESSAGE: usize = 3;

pub const OUT_TRANSFER: usize = 5;

pub const IN_REPLY: usize = 4;

pub const IN_TRANSFER: usize = 10;

pub const INTERRUPT: usize = 4;

pub const SPLIT: usize = 3;

// ** numbers of 16 bits; the library's from_le_bytes multiplies, and its to_le_bytes divides

// The number from `at` on, of a part that has it: parts are of several sizes.
fn number_at(b: &[u8], at: usize) -> u16
    requires { at + 2 ≤ length b.now }
    ensures { result ≡ number2 b.now at }
{
    le_u16(b, at) as u16
}

// The low byte of a number, and the high one.
fn low16(n: u16) -> u8
    ensures { result ≡ n % 256 }
{
    low(u32::from(n))
}

fn high16(n: u16) -> u8
    ensures { result ≡ n / 256 % 256 }
{
    high(u32::from(n))
}

// ** the parts

impl Part<PORT> for Port {
    const AT: usize = PORT_AT;

    ghost AT = { PORT_AT };

    ghost bytes_of = { port_bytes };

    ghost part_in = { port_in };

    ghost of = { port_of };

    fn to_bytes(self) -> [u8; PORT] {
        [
            low16(self.setting.packet),
            high16(self.setting.packet),
            self.configured,
            self.ren,
        ]
    }

    fn from_bytes(b: &[u8; PORT]) -> Self {
        Port {
            setting: Setting {
                packet: number_at(b, 0),
            },
            configured: b[2],
            ren: b[3],
        }
    }

    ghost fits = { Prim.search rules };

    ghost reads = { λ u. unfold state_in in refl };
}

impl Part<OUT_MESSAGE> for OutMessage {
    const AT: usize = OUT_MESSAGE_AT;

    ghost AT = { OUT_MESSAGE_AT };

    ghost bytes_of = { out_message_bytes };

    ghost part_in = { out_message_in };

    ghost of = { λ st. (out_of st).message };

    fn to_bytes(self) -> [u8; OUT_MESSAGE] {
        [low16(self.held), high16(self.held), self.ready]
    }

    fn from_bytes(b: &[u8; OUT_MESSAGE]) -> Self {
        OutMessage {
            held: number_at(b, 0),
            ready: b[2],
        }
    }

    ghost fits = { Prim.search rules };

    ghost reads = { λ u. unfold state_in in refl };
}

impl Part<OUT_TRANSFER> for OutTransfer {
    const AT: usize = OUT_TRANSFER_AT;

    ghost AT = { OUT_TRANSFER_AT };

    ghost bytes_of = { out_transfer_bytes };

    ghost part_in = { out_transfer_in };

    ghost of = { λ st. (out_of st).transfer };

    fn to_bytes(self) -> [u8; OUT_TRANSFER] {
        [
            low16(self.left),
            high16(self.left),
            low16(self.got),
            high16(self.got),
            self.end,
        ]
    }

    fn from_bytes(b: &[u8; OUT_TRANSFER]) -> Self {
        OutTransfer {
            left: number_at(b, 0),
            got: number_at(b, 2),
            end: b[4],
        }
    }

    ghost fits = { Prim.search rules };

    ghost reads = { λ u. unfold state_in in refl };
}

impl Part<IN_REPLY> for InReply {
    const AT: usize = IN_REPLY_AT;

    ghost AT = { IN_REPLY_AT };

    ghost bytes_of = { in_reply_bytes };

    ghost part_in = { in_reply_in };

    ghost of = { λ st. (in_of st).reply };

    fn to_bytes(self) -> [u8; IN_REPLY] {
        [
            low16(self.at),
            high16(self.at),
            low16(self.unsent),
            high16(self.unsent),
        ]
    }

    fn from_bytes(b: &[u8; IN_REPLY]) -> Self {
        InReply {
            at: number_at(b, 0),
            unsent: number_at(b, 2),
        }
    }

    ghost fits = { Prim.search rules };

    ghost reads = { λ u. unfold state_in in refl };
}

impl Part<IN_TRANSFER> for InTransfer {
    const AT: usize = IN_TRANSFER_AT;

    ghost AT = { IN_TRANSFER_AT };

    ghost bytes_of = { in_transfer_bytes };

    ghost part_in = { in_transfer_in };

    ghost of = { λ st. (in_of st).transfer };

    fn to_bytes(self) -> [u8; IN_TRANSFER] {
        [
            low16(self.asked),
            high16(self.asked),
            low16(self.left),
            high16(self.left),
            low16(self.sent),
            high16(self.sent),
            self.phase,
            self.tag,
            self.enabled,
            self.term,
        ]
    }

    fn from_bytes(b: &[u8; IN_TRANSFER]) -> Self {
        InTransfer {
            asked: number_at(b, 0),
            left: number_at(b, 2),
            sent: number_at(b, 4),
            phase: b[6],
            tag: b[7],
            enabled: b[8],
            term: b[9],
        }
    }

    ghost fits = { Prim.search rules };

    ghost reads = { λ u. unfold state_in in refl };
}

impl Part<INTERRUPT> for InterruptIn {
    const AT: usize = INTERRUPT_AT;

    ghost AT = { INTERRUPT_AT };

    ghost bytes_of = { interrupt_bytes };

    ghost part_in = { interrupt_in };

    ghost of = { interrupt_of };

    fn to_bytes(self) -> [u8; INTERRUPT] {
        let n = self.waiting;
        [self.status, n.notify1, n.notify2, self.halted]
    }

    fn from_bytes(b: &[u8; INTERRUPT]) -> Self {
        InterruptIn {
            status: b[0],
            waiting: Notify {
                notify1: b[1],
                notify2: b[2],
            },
            halted: b[3],
        }
    }

    ghost fits = { Prim.search rules };

    ghost reads = { λ u. unfold state_in in refl };
}

impl Part<SPLIT> for Split {
    const AT: usize = SPLIT_AT;

    ghost AT = { SPLIT_AT };

    ghost bytes_of = { split_bytes };

    ghost part_in = { split_in };

    ghost of = { λ st. st.split };

    #[tactic(auto, unfolding(crate::specs::Layout::split_number, crate::specs::Layout::count_of))]
    fn to_bytes(self) -> [u8; SPLIT] {
        match self {
            Split::None => [0, 0, 0],
            Split::AbortOut { count } => [low16(count), high16(count), 1],
            Split::AbortIn { count } => [low16(count), high16(count), 2],
            Split::Clear => [0, 0, 3],
        }
    }

    // No TryFrom<u8>, as of Remote: every byte is read, and is_unit refuses.
    #[tactic(auto, unfolding(crate::specs::Layout::split_of))]
    fn from_bytes(b: &[u8; SPLIT]) -> Self {
        let count = number_at(b, 0);
        match b[2] {
            0 => Split::None,
            1 => Split::AbortOut { count },
            2 => Split::AbortIn { count },
            _ => Split::Clear,
        }
    }

    ghost fits = { Prim.search rules };

    ghost reads = { λ u. unfold state_in in refl };
}

impl Part<1> for Remote {
    const AT: usize = REMOTE_AT;

    ghost AT = { REMOTE_AT };

    ghost bytes_of = { λ r. remote_number r ∷ [] };

    ghost part_in = { λ f. remote_of (byte f 0) };

    ghost of = { λ st. st.remote };

    #[tactic(auto, unfolding(crate::specs::Layout::remote_number))]
    fn to_bytes(self) -> [u8; 1] {
        [self as u8]
    }

    // No TryFrom<u8>: it would refuse what is_unit refuses, and every byte is read.
    #[tactic(auto, unfolding(crate::specs::Layout::remote_of))]
    fn from_bytes(b: &[u8; 1]) -> Self {
        match b[0] {
            0 => Remote::Locs,
            1 => Remote::Rems,
            2 => Remote::Lwls,
            _ => Remote::Rwls,
        }
    }

    ghost fits = { Prim.search rules };

    ghost reads = { λ u. unfold state_in in ap remote_of (get_or-take 1 (drop REMOTE_AT u) 0 0 (Prim.search rules) ∙ get_or-drop REMOTE_AT u 0 0) };
}

// Whether these are the bytes of a split: a kind that there is, with a count where it has one.
#[tactic(auto, using(rules::proofs::Choice::picks))]
pub fn is_split(b: &[u8; SPLIT]) -> bool
    ensures { result ≡ is_split b.now }
{
    b[2] <= 3 && (matches!(b[2], 1 | 2) || number_at(b, 0) == 0)
}

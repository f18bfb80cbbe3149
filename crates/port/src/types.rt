// The parts of a unit but for its two stores, and what is decided over them. Flags and phases are bytes, as C has them in a unit: one that
// no unit has is unsound, and answered so, where a bool or an enum could not hold it.
use rules::refusal::Refusal;
use rules::verdict::Verdict;
use wire::types::{Endpoint, Header, Setup};

// Bytes that a store holds.
pub const STORE: u16 = 1024;

// The packet sizes.
pub const FULL_SPEED: u16 = 64;

pub const HIGH_SPEED: u16 = 512;

// The first byte of a packet of Interrupt-IN: that of a service request, and the bit that stands over a tag.
pub const SERVICE_REQUEST: u8 = 0x81;

pub const TOP_BIT: u8 = 0x80;

// The bit of a status byte that asks for service.
pub const BIT_6: u8 = 0x40;

// The phases of a Bulk-IN transfer.
pub const CLOSED: u8 = 0;

pub const ASKED: u8 = 1;

pub const SENDING: u8 = 2;

pub const OWED: u8 = 3;

// What power-on is given.
#[repr(C)]
#[derive(Clone, Copy)]
pub struct Setting {
    pub packet: u16,
}

#[repr(C)]
#[derive(Clone, Copy)]
pub struct Port {
    pub setting: Setting,
    pub configured: u8,
    pub ren: u8,
}

// The message that comes in: `held` data bytes of it are in the store, and it is `ready` once it is whole.
#[repr(C)]
#[derive(Clone, Copy)]
pub struct OutMessage {
    pub held: u16,
    pub ready: u8,
}

// A Bulk-OUT transfer is open while `left` data bytes of it are to come; `got` have come, and `end` is its EOM.
#[repr(C)]
#[derive(Clone, Copy)]
pub struct OutTransfer {
    pub left: u16,
    pub got: u16,
    pub end: u8,
}

// Bulk-OUT. `recent` is the most recent tag, which is the open transfer's own.
#[repr(C)]
#[derive(Clone, Copy)]
pub struct BulkOut {
    pub message: OutMessage,
    pub transfer: OutTransfer,
    pub halted: u8,
    pub recent: u8,
}

// The reply that goes out: its `unsent` bytes stand in the store from `at` on.
#[repr(C)]
#[derive(Clone, Copy)]
pub struct InReply {
    pub at: u16,
    pub unsent: u16,
}

// A Bulk-IN transfer. `phase` says how far that of `tag` is: closed, asked (for `asked` bytes, up to `term` where `enabled`), sending
// (`sent` data bytes have gone, `left` are to go) or owed, where only the empty packet is to go.
#[repr(C)]
#[derive(Clone, Copy)]
pub struct InTransfer {
    pub phase: u8,
    pub tag: u8,
    pub asked: u16,
    pub enabled: u8,
    pub term: u8,
    pub left: u16,
    pub sent: u16,
}

// Bulk-IN. `recent` is the most recent tag.
#[repr(C)]
#[derive(Clone, Copy)]
pub struct BulkIn {
    pub reply: InReply,
    pub transfer: InTransfer,
    pub halted: u8,
    pub recent: u8,
}

// A packet of Interrupt-IN, by USB488's names for its two bytes, which are bytes of the unit in C. There is none where the first is 0.
#[repr(C)]
#[derive(Clone, Copy)]
pub struct Notify {
    pub notify1: u8,
    pub notify2: u8,
}

// Interrupt-IN, with the status byte that its packets tell of. A service request is kept while bit 6 of `status` is on.
#[repr(C)]
#[derive(Clone, Copy)]
pub struct InterruptIn {
    pub status: u8,
    pub waiting: Notify,
    pub halted: u8,
}

#[repr(C)]
#[derive(Clone, Copy)]
pub struct Small {
    pub port: Port,
    pub bulkout: BulkOut,
    pub bulkin: BulkIn,
    pub interrupt: InterruptIn,
}

// The split in progress, with the count of an abort.
#[derive(Clone, Copy)]
pub enum Split {
    None,
    AbortOut { count: u16 },
    AbortIn { count: u16 },
    Clear,
}

// The remote/local state.
#[derive(Clone, Copy)]
pub enum Remote {
    Locs,
    Rems,
    Lwls,
    Rwls,
}

// What a call is decided by.
#[derive(Clone, Copy)]
pub struct State {
    pub small: Small,
    pub split: Split,
    pub remote: Remote,
}

// What a Bulk-OUT packet comes to: a number with nothing changed, a number with Bulk-OUT halted, data bytes of the open transfer, or a
// header with its first data bytes. Numbers, and no refusals: `planned` (out_step) is public, and its promise, one of docs/TRACE.md, is for any.
#[derive(Clone, Copy)]
pub enum Outcome {
    Keep { number: u8 },
    Halt { number: u8 },
    Data { count: usize },
    Accept { header: Header, count: usize },
}

// What a call leaves that stores bytes: the state after it, the verdict, and its data: `count` bytes from `from` on, and 0 where none are.
#[derive(Clone, Copy)]
pub struct Plan {
    pub state: State,
    pub verdict: Verdict,
    pub from: usize,
    pub count: usize,
}

// What a call leaves whose bytes go into a lent buffer: the state after it, the verdict, and how many bytes it wrote.
#[derive(Clone, Copy)]
pub struct Given {
    pub state: State,
    pub verdict: Verdict,
    pub len: usize,
}

// What a setup packet comes to: what it asks, where that is served.
pub type SetupOutcome = Result<Setup, Refusal>;

// What an answered row does to the state.
#[derive(Clone, Copy)]
pub enum Effect {
    Stays,
    AbortsOut,
    AbortsIn,
    Clears,
    EndsSplit,
    SetsRen { on: u8 },
    GoesToLocal,
    LocksOut,
    ClearsHalt { endpoint: Endpoint },
    SetsHalt { endpoint: Endpoint },
    Queues { tag: u8 },
}

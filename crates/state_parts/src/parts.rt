// One part of the state set, the others kept; the sides as a break or an end leaves them; and tests on a part.
ghost use Rattle.std.specs.Prelude.{◌≡◌, ℕ};
ghost use Rattle.port.specs.Parts.{is_none, is_clear, keeps_halt, is_open_out, is_open_in, with_port, with_out, with_in, with_interrupt, with_split};
ghost use Rattle.port.specs.Parts.{with_remote, with_ren, holding, carrying, with_in_halted, with_status, with_waiting, with_interrupt_halted};
ghost use Rattle.port.specs.Parts.{no_message, closed_out, no_reply, closed_in, asked_in, sending_in};
ghost use Rattle.port.specs.Parts.{owed_in, empty_out, empty_in, no_packet, fresh, unbroken, broken, shut};

use port::types::{
    ASKED, BulkIn, BulkOut, CLOSED, InReply, InTransfer, InterruptIn, Notify, OWED, OutMessage,
    OutTransfer, Port, Remote, SENDING, Setting, Small, Split, State,
};

pub fn with_port(st: State, port: Port) -> State
    ensures { result ≡ with_port st port }
{
    State {
        small: Small { port, ..st.small },
        ..st
    }
}

pub fn with_out(st: State, bulkout: BulkOut) -> State
    ensures { result ≡ with_out st bulkout }
{
    State {
        small: Small {
            bulkout,
            ..st.small
        },
        ..st
    }
}

pub fn with_in(st: State, bulkin: BulkIn) -> State
    ensures { result ≡ with_in st bulkin }
{
    State {
        small: Small { bulkin, ..st.small },
        ..st
    }
}

pub fn with_interrupt(st: State, interrupt: InterruptIn) -> State
    ensures { result ≡ with_interrupt st interrupt }
{
    State {
        small: Small {
            interrupt,
            ..st.small
        },
        ..st
    }
}

pub fn with_split(st: State, split: Split) -> State
    ensures { result ≡ with_split st split }
{
    State { split, ..st }
}

pub fn with_remote(st: State, remote: Remote) -> State
    ensures { result ≡ with_remote st remote }
{
    State { remote, ..st }
}

pub fn with_ren(p: Port, ren: u8) -> Port
    ensures { result ≡ with_ren p ren }
{
    Port { ren, ..p }
}

// The message and the transfer of Bulk-OUT set, and the reply and the transfer of Bulk-IN.
pub fn holding(o: BulkOut, message: OutMessage, transfer: OutTransfer) -> BulkOut
    ensures { result ≡ holding o message transfer }
{
    BulkOut {
        message,
        transfer,
        ..o
    }
}

pub fn carrying(b: BulkIn, reply: InReply, transfer: InTransfer) -> BulkIn
    ensures { result ≡ carrying b reply transfer }
{
    BulkIn {
        reply,
        transfer,
        ..b
    }
}

pub fn with_in_halted(b: BulkIn, halted: u8) -> BulkIn
    ensures { result ≡ with_in_halted b halted }
{
    BulkIn { halted, ..b }
}

pub fn with_status(i: InterruptIn, status: u8) -> InterruptIn
    ensures { result ≡ with_status i status }
{
    InterruptIn { status, ..i }
}

pub fn with_waiting(i: InterruptIn, waiting: Notify) -> InterruptIn
    ensures { result ≡ with_waiting i waiting }
{
    InterruptIn { waiting, ..i }
}

pub fn with_interrupt_halted(i: InterruptIn, halted: u8) -> InterruptIn
    ensures { result ≡ with_interrupt_halted i halted }
{
    InterruptIn { halted, ..i }
}

// Nothing is held; no transfer is open on Bulk-OUT; no reply is stored; no packet waits on Interrupt-IN.
pub fn no_message() -> OutMessage
    ensures { result ≡ no_message }
{
    OutMessage { held: 0, ready: 0 }
}

pub fn closed_out() -> OutTransfer
    ensures { result ≡ closed_out }
{
    OutTransfer {
        left: 0,
        got: 0,
        end: 0,
    }
}

pub fn no_reply() -> InReply
    ensures { result ≡ no_reply }
{
    InReply { at: 0, unsent: 0 }
}

pub fn no_packet() -> Notify
    ensures { result ≡ no_packet }
{
    Notify {
        notify1: 0,
        notify2: 0,
    }
}

// An IN transfer in each of its phases.
pub fn closed_in() -> InTransfer
    ensures { result ≡ closed_in }
{
    InTransfer {
        phase: CLOSED,
        tag: 0,
        asked: 0,
        enabled: 0,
        term: 0,
        left: 0,
        sent: 0,
    }
}

pub fn asked_in(tag: u8, asked: u16, enabled: u8, term: u8) -> InTransfer
    ensures { result ≡ asked_in tag asked enabled term }
{
    InTransfer {
        phase: ASKED,
        tag,
        asked,
        enabled,
        term,
        ..closed_in()
    }
}

pub fn sending_in(tag: u8, left: u16, sent: u16) -> InTransfer
    ensures { result ≡ sending_in tag left sent }
{
    InTransfer {
        phase: SENDING,
        tag,
        left,
        sent,
        ..closed_in()
    }
}

pub fn owed_in(tag: u8) -> InTransfer
    ensures { result ≡ owed_in tag }
{
    InTransfer {
        phase: OWED,
        tag,
        ..closed_in()
    }
}

pub fn empty_out(halted: u8, recent: u8) -> BulkOut
    ensures { result ≡ empty_out halted recent }
{
    BulkOut {
        message: no_message(),
        transfer: closed_out(),
        halted,
        recent,
    }
}

pub fn empty_in(transfer: InTransfer, halted: u8, recent: u8) -> BulkIn
    ensures { result ≡ empty_in transfer halted recent }
{
    BulkIn {
        reply: no_reply(),
        transfer,
        halted,
        recent,
    }
}

// Nothing but its setting, and whether it is configured.
#[tactic(auto, unfolding(port::specs::Parts::fresh))]
pub fn fresh(setting: Setting, configured: u8) -> State
    ensures { result ≡ fresh setting configured }
{
    State {
        small: Small {
            port: Port {
                setting,
                configured,
                ren: 0,
            },
            bulkout: empty_out(0, 0),
            bulkin: empty_in(closed_in(), 0, 0),
            interrupt: InterruptIn {
                status: 0,
                waiting: no_packet(),
                halted: 0,
            },
        },
        split: Split::None,
        remote: Remote::Locs,
    }
}

// What a break leaves of a message: all of one that is ready.
#[tactic(auto, using(rules::proofs::Choice::picks))]
pub fn unbroken(m: OutMessage) -> OutMessage
    ensures { result ≡ unbroken m }
{
    if m.ready == 1 { m } else { no_message() }
}

// A halt of Bulk-OUT drops what is open and unfinished; so does the end of one.
#[tactic(auto, unfolding(port::specs::Parts::broken))]
pub fn broken(halted: u8, o: BulkOut) -> BulkOut
    ensures { result ≡ broken halted o }
{
    BulkOut {
        message: unbroken(o.message),
        transfer: closed_out(),
        halted,
        ..o
    }
}

// The IN transfer closes; what is unsent stays.
#[tactic(auto, unfolding(port::specs::Parts::shut))]
pub fn shut(b: BulkIn) -> BulkIn
    ensures { result ≡ shut b }
{
    BulkIn {
        transfer: closed_in(),
        ..b
    }
}

// A transfer is open on Bulk-OUT, and on Bulk-IN.
#[tactic(auto, using(rules::proofs::Choice::picks))]
pub fn is_open_out(o: BulkOut) -> bool
    ensures { result ≡ is_open_out o }
{
    o.transfer.left != 0
}

#[tactic(auto, using(rules::proofs::Choice::picks))]
pub fn is_open_in(b: BulkIn) -> bool
    ensures { result ≡ is_open_in b }
{
    b.transfer.phase != CLOSED
}

pub fn is_none(split: Split) -> bool
    ensures { result ≡ is_none split }
{
    matches!(split, Split::None)
}

pub fn is_clear(split: Split) -> bool
    ensures { result ≡ is_clear split }
{
    matches!(split, Split::Clear)
}

// A clear or an abort of Bulk-OUT keeps the halt of Bulk-OUT.
pub fn keeps_halt(split: Split) -> bool
    ensures { result ≡ keeps_halt split }
{
    matches!(split, Split::Clear | Split::AbortOut { .. })
}

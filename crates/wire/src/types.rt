// What a Bulk-OUT header and a setup packet can say.
use rules::refusal::Refusal;

// The endpoints, by their addresses.
pub const BULK_OUT: u8 = 0x01;

pub const BULK_IN: u8 = 0x82;

pub const INTERRUPT_IN: u8 = 0x83;

// Bytes of a setup packet, and of the longest answer to one.
pub const SETUP: usize = 8;

pub const CONTROL: usize = 24;

// A header that has no fault of its own. `end` is 1 with EOM, `enabled` is 1 with TermCharEnabled, else each is 0; without it `term` is 0.
// Two bytes, and no Option: `planned` (out_step) is public, and its promise, one of docs/TRACE.md, is for any two.
#[derive(Clone, Copy)]
pub enum Header {
    Message {
        tag: u8,
        size: u32,
        end: u8,
    },
    Request {
        tag: u8,
        size: u32,
        enabled: u8,
        term: u8,
    },
    Trigger {
        tag: u8,
    },
}

// A header, or its first fault.
pub type Read = Result<Header, Refusal>;

// The endpoints that feature and status rows name.
#[derive(Clone, Copy)]
pub enum Endpoint {
    Out,
    In,
    Interrupt,
}

// The rows of document 01's table of setup packets that a configured unit serves. What a row says of wValue is its low byte, as it came.
#[derive(Clone, Copy)]
pub enum Row {
    InitiateAbortBulkOut { tag: u8 },
    CheckAbortBulkOutStatus,
    InitiateAbortBulkIn { tag: u8 },
    CheckAbortBulkInStatus,
    InitiateClear,
    CheckClearStatus,
    GetCapabilities,
    IndicatorPulse,
    ReadStatusByte { tag: u8 },
    RenControl { on: u8 },
    GoToLocal,
    LocalLockout,
    ClearFeature { endpoint: Endpoint },
    SetFeature { endpoint: Endpoint },
    GetStatus { endpoint: Endpoint },
}

// What a setup packet that matches a row asks: SET_CONFIGURATION, which every unit serves, or another row.
#[derive(Clone, Copy)]
pub enum Setup {
    Configure { value: u8 },
    Asks { row: Row },
}

// Where a part of a unit stands: each behind the one before it. A flag, a tag and the remote/local state have a byte.
use crate::bytes::{IN_REPLY, IN_TRANSFER, INTERRUPT, OUT_MESSAGE, OUT_TRANSFER, PORT, SPLIT};
use port::types::STORE;

pub const REPLY_AT: usize = STORE as usize;

pub const PORT_AT: usize = REPLY_AT + STORE as usize;

pub const OUT_MESSAGE_AT: usize = PORT_AT + PORT;

pub const OUT_HALTED_AT: usize = OUT_MESSAGE_AT + OUT_MESSAGE;

pub const OUT_TRANSFER_AT: usize = OUT_HALTED_AT + 1;

pub const OUT_RECENT_AT: usize = OUT_TRANSFER_AT + OUT_TRANSFER;

pub const IN_REPLY_AT: usize = OUT_RECENT_AT + 1;

pub const IN_TRANSFER_AT: usize = IN_REPLY_AT + IN_REPLY;

pub const IN_HALTED_AT: usize = IN_TRANSFER_AT + IN_TRANSFER;

pub const IN_RECENT_AT: usize = IN_HALTED_AT + 1;

pub const INTERRUPT_AT: usize = IN_RECENT_AT + 1;

pub const SPLIT_AT: usize = INTERRUPT_AT + INTERRUPT;

pub const REMOTE_AT: usize = SPLIT_AT + SPLIT;

// The bytes of a unit.
pub const UNIT: usize = REMOTE_AT + 1;

// The last byte of Interrupt-IN's part.
pub const INTERRUPT_HALTED_AT: usize = INTERRUPT_AT + 3;

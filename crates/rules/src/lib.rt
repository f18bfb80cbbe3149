// Document 01's refusals, its statuses, and what an answer tells, by name, for code. specs/Answers.antt gives the definitions their
// numbers; code that used one for another would not be proved.
#![tactic(auto)]

pub mod refusal; // why a call is refused
pub mod verdict; // what every answer says beside its bytes

// Bytes and no enums: a number, and what is told, is a byte of what C is given, and a status goes out on the wire as it stands.

pub const DONE: u8 = 0;

pub const SUCCESS: u8 = 0x01;

pub const PENDING: u8 = 0x02;

pub const INTERRUPT_IN_BUSY: u8 = 0x20;

pub const FAILED: u8 = 0x80;

pub const TRANSFER_NOT_IN_PROGRESS: u8 = 0x81;

pub const SPLIT_NOT_IN_PROGRESS: u8 = 0x82;

pub const SPLIT_IN_PROGRESS: u8 = 0x83;

pub const TELLS_NOTHING: u8 = 0;

pub const TELLS_TRIGGER: u8 = 1;

pub const TELLS_PULSE: u8 = 2;

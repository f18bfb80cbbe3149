// The bytes of a unit, as C holds it.
#![tactic(auto)]

pub mod bytes; // those of each part
pub mod part; // what a part is
pub mod places; // where a part stands

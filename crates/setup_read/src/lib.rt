// A setup packet read, with no unit in sight.
#![tactic(auto)]

pub mod setup; // which row its eight bytes match

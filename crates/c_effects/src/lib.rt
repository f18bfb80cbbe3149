// What the row of a setup packet does to the unit in bytes: no more is written than the parts that it sets.
#![tactic(auto)]

pub mod effects;

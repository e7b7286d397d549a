// The table: its faults, its class, and its properties by name.
#![tactic(auto)]

pub mod hash;
pub mod lookup;
pub mod validate;

// Values of instances, read from their bytes, and their comparison.
#![tactic(auto)]

pub mod class;
pub mod compare;
pub mod item;
pub mod plain;
pub mod read;
pub mod same;
pub mod skip;
pub mod unit;

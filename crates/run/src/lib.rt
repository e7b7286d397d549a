// The run, 01's term for the instances that one call of mark goes through: how it divides into them, and what an instance's answer adds to the marks and to the totals.
#![tactic(auto)]

pub mod fault;
pub mod reading;
pub mod totals;

// Instances: whether one conforms to a table, and where each property's record starts.
#![tactic(auto)]

pub mod array;
pub mod body;
pub mod conform;
pub mod notes;
pub mod start;

// Records, names and kinds: what tables, instances, arrays and runs are made of.
#![tactic(auto)]

pub mod kind;
pub mod name;
pub mod read;
pub mod walk;

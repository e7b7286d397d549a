// The matcher of LIKE: it moves a pattern's live symbols on by one character each step.
#![tactic(auto)]

pub mod live;
pub mod matcher;
pub mod recent;
pub mod remembered;

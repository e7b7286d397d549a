// LIKE patterns: the reader of a pattern, which works out its sets of symbols and what may follow each of them.
#![tactic(auto)]

pub mod character;
pub mod fragment;
pub mod hits;
pub mod links;
pub mod reader;
pub mod set;
pub mod symbol;
pub mod symbol_set;

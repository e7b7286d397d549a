// What every layer above stands on: bytes by their offset, integers of any width, digits of any base, the order of values.
#![tactic(auto)]

pub mod bytes;
pub mod decimal;
pub mod digit;
pub mod integer;
pub mod order;

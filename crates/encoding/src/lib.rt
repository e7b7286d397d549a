// UTF-8 text: well-formed sequences, scalar values, characters.
#![tactic(auto)]

pub mod count;
pub mod scalar;
pub mod sequence;
pub mod text;
mod whole;

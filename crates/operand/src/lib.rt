// What the parts of a comparison stand for: the property of a path, the index of a token, the value of a literal, the elements of an array literal, the
// pattern of a string literal. Each is read from the query where it stands; what stands outside of the query reads as nothing.
#![tactic(auto)]

pub mod cause;
pub mod element;
pub mod index;
pub mod literal_read;
pub mod name;
pub mod pattern_literal;

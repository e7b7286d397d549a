// What a token can be to the grammar: the terminals of DSP0212's first group.
#![tactic(auto)]

pub mod kind;
pub mod literal;
pub mod operator;
pub mod quantifier;

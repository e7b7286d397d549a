// Reals: a literal's value by one rounded operation, a value from its bytes, and their order by IEEE 754.
#![tactic(auto)]

pub mod bits;
pub mod literal;
pub mod order;
pub mod powers;
pub mod scale;

// A real literal of 01: its value beside the whole numbers that it was made from. `exponent` is e, from which the digits after the point are taken off.
#[derive(Drop)]
pub struct Real {
    pub negative: bool,
    pub digits: u64,
    pub exponent: i32,
    pub value: f64,
}

// DSP0212's first grammar group (5.3.2) up to property-comp: one comparison, and where the grammar breaks.
// Each reader takes the token that it starts with and hands back what it read and the token after that, or the fault.
#![tactic(auto)]

pub mod comparison;
pub mod fault;
pub mod left_side;
pub mod operation;
pub mod path;
pub mod right_side;

// DSP0212's first grammar group (5.3.2) above property-comp: a query's comparisons, one after another, and what is said of its text.
// Each reader takes the token that it starts with and hands back what it read and the token after that, or the fault.
#![tactic(auto)]

pub mod join;
pub mod query;
pub mod text;

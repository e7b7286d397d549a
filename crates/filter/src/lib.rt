// The filter engine: `check` for a query and a table, `evaluate` for a query, a table and an instance. Both take bytes of any content and length.
#![tactic(auto)]

pub mod check;
pub mod evaluate;
pub mod refusal;

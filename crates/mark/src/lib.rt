// mark (query, table, run, marks): a query evaluated in each instance of a run, with one mark each and the totals. Bytes of any content and length.
#![tactic(auto)]

pub mod mark;
pub mod refusal;

// watch (query, table, run, window, need, marks): whether enough of the last instances of a run are included. Bytes of any content and length, and any two numbers.
#![tactic(auto)]

pub mod refusal;
pub mod watch;
pub mod window;

// conjoin (first, second, table, buffer): one query that includes exactly what two include (02 Q-7). Bytes of any content and length.
#![tactic(auto)]

pub mod conjoin;
pub mod group;
pub mod refusal;
pub mod size;
pub mod write;

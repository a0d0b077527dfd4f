//! Laws about the texts of queries that need facts about UTF-8. The crate has no code that runs.
#![tactic(auto)]

pub mod laws;

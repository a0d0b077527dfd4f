//! What runs of `edit` leave in the history of a share, over a connection that a run of `serve` or `relay` served. The
//! crate has no code that runs.
#![tactic(auto)]

pub mod laws;

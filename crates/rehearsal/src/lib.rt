//! A rehearsal of a share: generated batches edit it while three mirrors follow it, and a summary states what they
//! hold and how they were served. History and summary are functions of a few numbers: `specs/` defines the edits,
//! when a mirror requests and which of its requests get a delta, without a share or a mirror.
#![tactic(auto)]

mod answering;
mod carried;
mod draws;
mod edits;
mod follower;
mod plan;
mod queries;
mod rehearsing;
mod run;
mod summary;

pub use plan::Rehearsal;
pub use rehearsing::{BrokenOff, Rehearsed, rehearse};

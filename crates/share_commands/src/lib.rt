//! The commands on a share that no other process reaches: `list` opens one with a batch of records and lists it,
//! `rehearse` edits one with made-up batches, and `replay` plays to a new one a script of what comes over many
//! connections. Each has its specification in a file of `specs/`, and its function ends as that says.
#![tactic(auto)]

mod list;
mod look;
mod opening;
mod rehearse;
mod replay;

pub use list::{ListFault, list_share};
pub use rehearse::{RehearseFault, rehearse_share};
pub use replay::{ReplayFault, replay_script};

//! The lists of a share, and which of their members changed since a base. A contract sees a store by the batches of
//! edits that it represents: it returns what `share_history` says of these batches.
#![tactic(auto)]

mod back;
mod batches;
mod edits;
mod head;
mod heads;
mod kept;
mod listed;
mod lists;
mod members;
mod named;
mod names;
mod prune;
mod reads;
mod rules;
mod store;
mod tops;
mod touched;

pub use head::{ListHead, Member};
pub use store::PlaylistStore;

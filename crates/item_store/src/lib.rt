//! The items of a share by their ids, and which of them changed since a base. Contracts see a store by the batches of
//! edits that it represents: what it returns is what `share_history` says of these batches.
#![tactic(auto)]

mod batches;
mod changes;
mod edits;
mod store;

pub use store::ItemStore;

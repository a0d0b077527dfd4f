//! The library in a share's listings, read back row by row. For each listing that it takes, a relay returns the batch
//! of edits from the library before to the one after.
#![tactic(auto)]

mod changes;
mod edits;
mod items;
pub mod laws;
mod puts;
mod relay;
mod rows;
mod untaken;

pub use relay::{Change, Relay};
pub use rows::row_of;
pub use untaken::Untaken;

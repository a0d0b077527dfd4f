//! The history of a share as a list that grows at its end. Capacity is reserved first, so an entry can always be
//! appended after a `reserve`.
#![tactic(auto)]

mod log;

pub use log::EditLog;

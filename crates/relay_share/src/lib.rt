//! A relay: a share that follows another one. Each listing that it reads over its connection becomes one edit of its
//! own share, made in a turn of the relay's handle. When the relay ends, it stops its share.
#![tactic(auto)]

pub mod laws;
mod relaying;
mod report;
mod rounds;
mod turns;

pub use relaying::relay_link;
pub use report::{RelayEnd, RelayReport, Relayed};

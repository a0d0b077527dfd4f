//! The command `relay`: follows another share, and serves what it follows to players. Workers serve the players'
//! connections, each in its own thread; concurrently the relay reads the listings of the other share and edits its own.
#![tactic(auto)]

mod closing;
mod command;
mod fault;
pub mod laws;
mod opening;
mod relayer;
mod running;
mod terms;

pub use command::relay;
pub use fault::RelayFault;
pub use terms::Relaying;

//! Scripts of what comes over many connections, and replays of them to a share, one answer at a time.
#![tactic(auto)]

mod answering;
mod asking;
mod connection;
mod delivery;
mod ending;
mod ends;
mod intake;
pub mod laws;
mod line;
mod playing;
mod reaching;
mod replay_error;
mod replaying;
mod script;
mod telling;

pub use delivery::Delivery;
pub use ends::End;
pub use replay_error::ReplayError;
pub use replaying::replay;
pub use script::{Script, ScriptError};

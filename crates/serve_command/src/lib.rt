//! The command `serve`: shares a catalogue at two addresses, one for players and one for editors, from the records that
//! it begins with to the history that it leaves. Workers, each in its own thread, serve the connections. A file may
//! keep the edits.
#![tactic(auto)]

mod closing;
mod command;
mod fault;
pub mod laws;
mod opening;
mod placed;
mod places;
mod records;
mod shares;
mod terms;
mod unserved;

pub use command::serve;
pub use fault::ServeFault;
pub use share_crew::{LinkReports, Outcome, Verdict};
pub use terms::Serving;

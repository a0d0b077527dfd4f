//! One state for many threads, which take turns at it. The state has a history that only grows. In a turn a thread
//! finds a history that begins with all that its handle has seen, and the entries of its own number there are those
//! that it made.
#![tactic(auto)]

mod bell;
mod gate;
mod law;
mod pass;
mod recorded;
mod seats;
mod state;
mod turns;
mod view;

pub use bell::Bell;
pub use pass::{Pass, ShareLock, Turn};
pub use recorded::Recorded;

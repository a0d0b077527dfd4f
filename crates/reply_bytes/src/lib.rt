//! Replies as the bytes of a connection, and writing one of which head and body are known. `share_replay` and
//! `share_server` write replies by the same definition.
#![tactic(auto)]

pub mod laws;
mod writing;

pub use writing::{ReplyError, status_of, write_failure, write_refusal, write_reply};

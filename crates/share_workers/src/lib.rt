//! Workers that serve a share's connections concurrently. Each accepts connections at its listener, serves one after the
//! other with its own handle of the share's lock, and returns each to the listener. The edits of one worker may be kept.
#![tactic(auto)]

mod all;
pub mod laws;
mod worker;
mod working;

pub use all::{serve_all, serve_kept};
pub use worker::{Worker, WorkerEnd};
pub use working::{keep_worker, serve_worker};

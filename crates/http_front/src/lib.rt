//! Reads HTTP/1.x requests to a share from the bytes of a connection, however they are split, and writes heads of
//! replies. An error comes in the call that takes the byte which shows it.
#![tactic(auto)]

mod asks;
mod cuts;
pub mod laws;
mod numbers;
mod parameters;
mod reader;
mod reply_heads;
mod routes;
mod targets;
mod wants;

pub use http_heads::HeadError;
pub use reader::HeadReader;
pub use reply_heads::{failure_head, reply_head};
pub use share_asks::{Ask, AskError, BodyForm, Role, Verb, Want};

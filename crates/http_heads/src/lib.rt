//! Heads of HTTP/1.x messages (RFC 9112), and the messages in bytes. Requests and replies are gathered from bytes as
//! they come, however they are split, and are refused exactly if no message can begin so.
#![tactic(auto)]

mod buffer;
mod fields;
mod gathering;
mod heads;
mod kind;
pub mod laws;
mod limits;
mod refusal;
mod replies;
mod scanning;

pub use gathering::Gatherer;
pub use heads::{Head, read_head};
pub use kind::Kind;
pub use limits::{BODY_BYTES, FIELDS, HEAD_BYTES, LINES, REPLY_BYTES};
pub use refusal::HeadError;
pub use replies::{ReplyHead, read_reply_head};

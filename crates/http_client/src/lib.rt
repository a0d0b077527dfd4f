//! HTTP/1.x for a client: the bytes of a request, and a reader of replies, however their bytes are split.
#![tactic(auto)]

pub mod laws;
mod parameters;
mod reader;
mod refusal;
mod requests;

pub use reader::ReplyReader;
pub use refusal::ReplyError;
pub use requests::{post, request};

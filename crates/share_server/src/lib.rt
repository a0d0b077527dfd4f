//! Serves a connection of a share: reads requests, answers each in a turn, and writes the reply before it reads on. A
//! keeper has each edit before its reply is written. The report of a connection is a function of the share's one
//! history.
#![tactic(auto)]

pub mod laws;
mod link;
mod report;
mod turns;

pub use link::{keep_link, serve_link};
pub use report::{LinkEnd, LinkReport, Served, ServedRequests};
pub use turns::{Answered, Unanswered, answer_request};

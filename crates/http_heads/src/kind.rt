//! The kinds of messages.

/// A server reads requests, a client replies.
#[derive(Clone, Copy, PartialEq, Eq)]
pub enum Kind {
    Request,
    Reply,
}

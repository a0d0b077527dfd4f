//! The forms of a reply's body.

use crate::ask::Verb;

/// The kind of a reply's body, with what the head states besides the length.
#[derive(Clone, Copy, PartialEq, Eq)]
pub enum BodyForm {
    NoBody,
    /// A tag (`application/x-dmap-tagged`).
    Dmap,
    /// A line (`text/plain`).
    Plain,
    /// No body; the head states the allowed method.
    Allow(Verb),
}

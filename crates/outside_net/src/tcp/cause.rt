//! Why a call over TCP failed, in words for a person.
use std::fmt::{Display, Formatter};
use std::string::String;
use std::{fmt, io};

/// What was tried.
#[derive(Clone, Copy, PartialEq, Eq, Debug)]
pub enum Action {
    Listen,
    Accept,
    Connect,
    Read,
    Write,
}

impl Action {
    // The words before the address.
    fn text(self) -> &'static str {
        match self {
            Action::Listen => "cannot listen at",
            Action::Accept => "no more connections can be accepted at",
            Action::Connect => "cannot connect to",
            Action::Read => "nothing more can be read from",
            Action::Write => "nothing more can be written to",
        }
    }
}

/// The system's error in a failed call, with what was tried and at which address.
#[derive(Debug, Drop)]
pub struct Cause {
    pub action: Action,
    /// The address, as it was given or as the system writes it; empty if there was no memory for it.
    pub place: String,
    pub error: io::Error,
}

impl Display for Cause {
    fn fmt<W: fmt::Write>(&self, f: &mut Formatter<W>) -> fmt::Result {
        write!(f, "{} {}: {}", self.action.text(), self.place, self.error)
    }
}

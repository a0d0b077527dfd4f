//! Ends of connections.

/// How a connection ends.
#[derive(Clone, Copy, PartialEq, Eq)]
pub enum End {
    /// Its input ended between two requests, or its last request closed it.
    Closed,
    /// Its input ended inside a request, after `at` bytes.
    Cut { at: u64 },
    /// Its bytes were refused with this status: no more bytes could make them a request.
    Refused { status: u16 },
    /// It had the most requests of a connection.
    Spent,
    /// The share was stopped.
    Stopped,
    /// An update was still pending at the end of the script.
    Held,
}

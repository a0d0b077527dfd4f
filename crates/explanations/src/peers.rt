//! Why another share refused, or what is wrong with its answer.

use std::alloc::{AllocError, Global};
use std::str::from_utf8;

/// Returns the status in the line `peer: refused S`.
pub fn refused_status(last: &[u8]) -> Option<u16> {
    let rest = last.strip_prefix(b"peer: refused ".as_slice())?;
    let digits = rest.get(..3)?;
    from_utf8(digits).ok()?.parse::<u16>().ok()
}

/// Returns what a share at `place` that refused an edit meant by a status.
pub fn edit_words(alloc: Global, place: &str, status: u16) -> Result<String, AllocError> {
    match status {
        404 => {
            format!(in alloc;
                "{place} takes no edits: is it the address for players, and not the one for edits?"
            )
        }
        413 => format!(in alloc; "{place} takes no records of this length (413)"),
        507 => {
            format!(in alloc;
                "the share at {place} has no room for these edits: it takes 262144 from its start, and 1024 lists (507)"
            )
        }
        _ => share_words(alloc, place, status),
    }
}

/// Returns what a share at `place` that refused a request of a player meant by a status.
pub fn share_words(alloc: Global, place: &str, status: u16) -> Result<String, AllocError> {
    match status {
        200 => format!(in alloc; "{place} answers, but not as a share does"),
        400 => format!(in alloc; "{place} does not understand the request (400): is it a share?"),
        403 => format!(in alloc; "the share at {place} ended this session (403)"),
        404 => {
            format!(in alloc;
                "{place} knows nothing of it (404): is it the address of a share for players, and does the list exist?"
            )
        }
        500 => format!(in alloc; "the share at {place} had not enough memory (500)"),
        503 => format!(in alloc; "the share at {place} is being stopped (503)"),
        507 => format!(in alloc; "the share at {place} is full (507)"),
        _ => format!(in alloc; "{place} refused with the status {status}"),
    }
}

/// Returns what is wrong with the answer of a share at `place`, by the run's last line.
pub fn answer_words(alloc: Global, place: &str, last: &[u8]) -> Result<String, AllocError> {
    if last.starts_with(b"peer: ended") {
        format!(in alloc; "{place} ended the connection within a response, or before it")
    } else if last.starts_with(b"peer: listing") {
        format!(in alloc;
            "the response of {place} is not a listing, or an older one than the one before"
        )
    } else if last.starts_with(b"peer: row") {
        format!(in alloc; "a row of the listing of {place} has the id 0, which no item has")
    } else if last.starts_with(b"peer: codes") {
        format!(in alloc; "the table of content codes of {place} cannot be read")
    } else {
        format!(in alloc;
            "{place} does not answer as a share does: does another program listen there?"
        )
    }
}

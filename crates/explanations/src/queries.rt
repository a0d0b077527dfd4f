//! Why a query is refused, with a mark below the place.

use crate::quoting::visible;
use item_model::{QueryError, QueryWhy};
use song_query::{OPEN_PARENTHESES, QUERY_BYTES, read};
use std::alloc::{AllocError, Global};

/// How many characters before and after a place are shown.
const SHOWN_CHARS: usize = 60;

/// Returns why `text` is refused as a query, or `None` if it is a query.
pub fn query_reason(alloc: Global, text: &str) -> Result<Option<String>, AllocError> {
    match read(alloc, text) {
        Ok(_) => Ok(None),
        Err(error) => Ok(Some(error_reason(alloc, text, &error)?)),
    }
}

/// Returns the words for an error of the query `text`.
pub fn error_reason(alloc: Global, text: &str, error: &QueryError) -> Result<String, AllocError> {
    match error {
        QueryError::TooLong => {
            let len = text.len();
            format!(in alloc; "the query has {len} bytes, and at most {QUERY_BYTES} are possible")
        }
        QueryError::TooDeep { place } => {
            let mark = marked(alloc, text, *place)?;
            format!(in alloc;
                "more than {OPEN_PARENTHESES} parentheses of the query are open:\n{mark}"
            )
        }
        QueryError::At { place, why } => {
            let words = match why {
                QueryWhy::End => "the query ends too early:",
                QueryWhy::Byte => "no query goes on like this:",
            };
            let mark = marked(alloc, text, *place)?;
            format!(in alloc; "{words}\n{mark}")
        }
        QueryError::Memory => Err(AllocError),
    }
}

/// Returns the part of `text` around the byte `place`, and below it a line with a mark.
fn marked(alloc: Global, text: &str, place: u64) -> Result<String, AllocError> {
    let column = chars_before(text, place);
    let first = column.saturating_sub(SHOWN_CHARS);
    let last = column.saturating_add(SHOWN_CHARS);
    let mut shown = String::from_str(alloc, "    ")?;
    let mut index = 0usize;
    for c in text.chars() {
        if first <= index && index < last {
            shown.push(visible(c))?;
        }
        index = index.saturating_add(1);
    }
    shown.push_str("\n    ")?;
    for _ in first..column {
        shown.push(' ')?;
    }
    shown.push('^')?;
    Ok(shown)
}

/// Returns how many characters of `text` begin before the byte `place`.
fn chars_before(text: &str, place: u64) -> usize {
    let mut bytes = 0u64;
    let mut chars = 0usize;
    for c in text.chars() {
        if bytes >= place {
            return chars;
        }
        bytes = bytes.saturating_add(c.len_utf8() as u64);
        chars = chars.saturating_add(1);
    }
    chars
}

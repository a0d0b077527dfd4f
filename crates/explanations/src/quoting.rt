//! Texts of arguments and inputs, as an explanation shows them.

use std::alloc::{AllocError, Global};
use std::str::from_utf8;

/// The most characters of a text that are quoted.
const QUOTED_CHARS: usize = 80;

/// Returns `text` with a question mark in place of each control character but the line feed.
pub fn printable(alloc: Global, text: &str) -> Result<String, AllocError> {
    let mut shown = String::new(alloc);
    for c in text.chars() {
        shown.push(if c == '\n' { c } else { visible(c) })?;
    }
    Ok(shown)
}

/// Returns `c`, or a question mark if it is a control character or one that changes the direction of what follows.
pub fn visible(c: char) -> char {
    match c {
        '\0'..='\u{1f}' | '\u{7f}'..='\u{9f}' => '?',
        '\u{202a}'..='\u{202e}' | '\u{2066}'..='\u{2069}' => '?',
        _ => c,
    }
}

/// Returns the bytes of a text between quotes, with escapes for what cannot be printed.
pub fn quoted(alloc: Global, bytes: &[u8]) -> Result<String, AllocError> {
    match from_utf8(bytes) {
        Ok(text) => quoted_text(alloc, text),
        Err(error) => {
            let at = error.valid_up_to();
            format!(in alloc; "a text that is not UTF-8 at its byte {at}")
        }
    }
}

/// Returns a text between quotes, with escapes for what cannot be printed.
pub fn quoted_text(alloc: Global, text: &str) -> Result<String, AllocError> {
    let mut front = String::new(alloc);
    let mut left = QUOTED_CHARS;
    for c in text.chars() {
        if left == 0 {
            return format!(in alloc; "{:?}..", front.as_str());
        }
        left -= 1;
        front.push(c)?;
    }
    format!(in alloc; "{:?}", front.as_str())
}

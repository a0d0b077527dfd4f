//! What a reader returns.

use dmap_tags::{Code, Value};

/// A step through tags. `at` is the offset of the tag's head, counted from the first byte that was fed.
#[derive(Debug, Drop)]
pub enum Event {
    /// A list's head was read; its payload has `len` bytes.
    Open { code: Code, len: u32, at: u64 },
    /// A tag that is not a list was read whole.
    Leaf { code: Code, value: Value, at: u64 },
    /// A list's last byte was read.
    Close { code: Code, at: u64 },
}

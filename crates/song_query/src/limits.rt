//! The limits of queries.

/// The maximum length of a query's text in bytes.
pub const QUERY_BYTES: usize = 4096;

/// The maximum number of parentheses that are open at once.
pub const OPEN_PARENTHESES: usize = 64;

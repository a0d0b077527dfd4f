//! Limits of a message.

/// The most bytes of a head.
pub const HEAD_BYTES: usize = 16_384;

/// The most nonempty lines of a request's head.
pub const LINES: u64 = 65;

/// The most fields of a head.
pub const FIELDS: usize = 64;

/// The most bytes of a request's body.
pub const BODY_BYTES: usize = 4_194_304;

/// The most bytes of a reply's body: those of the longest top tag.
pub const REPLY_BYTES: usize = 1_073_741_832;

/// The most digits of a length.
pub(crate) const DIGITS: usize = 20;

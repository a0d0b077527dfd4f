//! The numbers of a share.

/// The revision of a share without edits.
pub const FIRST_REVISION: u32 = 2;

/// The container that always exists and has all items.
pub const BASE_LIST: u32 = 1;

/// A session ends with this many later logins.
pub const LIVE_SESSIONS: u32 = 64;

/// The most entries of edits and of logins in a history.
pub const MAX_ENTRIES: usize = 1_048_576;

/// The most edits in all batches of a history.
pub const MAX_EDITS: usize = 262_144;

/// The most lists besides container 1.
pub const MAX_LISTS: usize = 1_024;

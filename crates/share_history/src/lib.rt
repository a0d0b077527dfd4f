//! Definitions of what is true at a revision of a share: its items and lists, the rows of a listing, the delta
//! window, and what a mirror of a listing should hold. The definitions are in `specs/`, their laws in `laws`. The
//! code is the numbers of a share, the codes of its listings, the properties by which it is browsed, `list_of` and
//! `revision_after`.
#![tactic(auto)]

mod codes;
pub mod laws;
mod named;
mod numbers;
mod revisions;

pub use codes::{body_code, browse_code, browsed, key_code};
pub use named::list_of;
pub use numbers::{BASE_LIST, FIRST_REVISION, LIVE_SESSIONS, MAX_EDITS, MAX_ENTRIES, MAX_LISTS};
pub use revisions::revision_after;

//! A slow, plain implementation of a share: each function searches the whole history for each question, and is proved
//! to compute the definition of its name in `share_history`. No program runs it; tests compare the definitions with
//! known bytes through it.
#![tactic(auto)]

mod bodies;
mod browse;
mod databases;
mod items;
mod kept;
mod keys;
mod limits;
mod listings;
mod lists;
mod names;
mod ranges;
mod revisions;
mod selection;
mod sessions;

pub use bodies::{body, delta_body, full_body, listing_body};
pub use browse::{browse_body, browse_values};
pub use databases::{containers_body, databases_body, playlists};
pub use items::item;
pub use kept::{is_kept, is_touched, touched};
pub use limits::{has_room_for, is_below_entry_limit, takes_batch};
pub use listings::{Listing, delta_listing, full_listing, listing_for};
pub use lists::{PlaylistRef, list, member};
pub use names::{Named, is_named};
pub use revisions::{after, at_revision, revision};
pub use selection::{is_selected, is_there, library, row, rows};
pub use sessions::{is_live, is_stopped, next_session, until_login};

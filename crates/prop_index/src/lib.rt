//! The ids of items by the texts of the properties by which a library is browsed: artists, albums, genres and composers.
//! What an index answers is the filter of the library by that text, however the library came to be what it is.
#![tactic(auto)]

mod candidates;
mod changes;
mod forms;
mod index;
mod keys;
pub mod laws;
mod lowered;
mod texts;

pub use changes::Change;
pub use index::PropIndex;

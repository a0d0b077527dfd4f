//! Reads DMAP tags as bytes come, in chunks of any size: a `DmapReader` returns an event when a list opens, a
//! value is whole or a list closes, and refuses at the first malformed tag. The definitions (`specs/Walk.antt`) do not
//! depend on how the bytes were split. `read_tag` reads one whole tag at the beginning of bytes, by the same rules, and
//! `write_tag` writes one.
#![tactic(auto)]

mod buffer;
mod containers;
mod event;
mod head;
pub mod laws;
mod position;
mod reader;
mod refusal;
mod whole_tag;
mod written_tag;

pub use event::Event;
pub use reader::{DmapReader, Limits};
pub use refusal::StreamError;
pub use whole_tag::read_tag;
pub use written_tag::{WriteError, write_tag};

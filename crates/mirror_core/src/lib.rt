//! A mirror of one listing of a share: it reads the bodies of responses and holds the listing's rows.
//! `specs/Bodies.antt` says which tags are listings, and `share_history` what a mirror holds after one.
#![tactic(auto)]

mod changes;
pub mod laws;
mod merging;
mod mirror;
mod reading;
mod steps;
mod tags;
mod told;

pub use mirror::{Applied, Mirror, MirrorError};
pub use reading::told_by;
pub use tags::key_of;
pub use told::ToldRef;

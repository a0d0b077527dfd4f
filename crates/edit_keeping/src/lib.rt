//! What a server does with a batch before it acknowledges it: a keeper that keeps it, and one that keeps nothing.
#![tactic(auto)]

mod keeps;
mod unkept;

pub use keeps::{Keeps, Lost};
pub use unkept::Unkept;

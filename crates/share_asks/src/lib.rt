//! A complete request as a value, and the forms of a reply's body. The reader of requests makes an `Ask`, and the
//! share answers it; neither depends on the other.
#![tactic(auto)]

mod ask;
mod form;

pub use ask::{Ask, AskError, Role, Verb, Want};
pub use form::BodyForm;

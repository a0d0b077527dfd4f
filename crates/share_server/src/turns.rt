//! Answers one request of a connection of a share that many connections share. A turn lasts for the answer, and to
//! keep an edit; the reply is written later. A pending request waits at the bell, outside any turn.

mod answers;
mod keeping;
mod looks;
mod outcome;

pub use answers::answer_request;
pub use outcome::{Answered, Unanswered};

//! The answers of a share.

use listing_plan::Plan;
use share_asks::BodyForm;

/// The answer to a parsed request.
#[derive(Drop)]
pub enum Answer {
    Reply(Reply),
    /// The update is pending: the share is at this `revision`, and `point` is the length of its history.
    Wait { revision: u32, point: u64 },
}

/// A reply, given at one length of the share's history.
#[derive(Drop)]
pub struct Reply {
    pub content: ReplyContent,
    /// The history length after the reply.
    pub point: u64,
    /// The session that this answers, 0 if none.
    pub session: u32,
    /// The session's last-answered length before this reply, 0 if it had none.
    pub seen: u64,
    /// Whether the reply added an entry.
    pub added: bool,
}

/// The status and the body of a reply.
#[derive(Drop)]
pub struct ReplyContent {
    pub status: u16,
    pub form: BodyForm,
    /// Can be written at any later time, and knows its length.
    pub plan: Plan,
}

//! The outcomes of a request.

ghost use Rattle.std.specs.Prelude.{◌≡◌};
ghost use Rattle.share_server.specs.Answering.{has_added};

use crate::report::Served;
use share_core::ReplyContent;

/// A request that was served, and what is to be written for it.
#[derive(Drop)]
pub struct Answered {
    pub served: Served,
    /// Status and body, which can be written later without the share. `None` if allocating the answer failed; the
    /// status is then 500.
    pub said: Option<ReplyContent>,
    /// Whether the share was stopped at the history length of the answer.
    pub stopped: bool,
    /// The share's revision at the history length of the answer.
    pub revision: u32,
}

/// Why a request was not answered.
#[derive(Drop)]
pub enum Unanswered {
    /// Its peer left while the update was pending.
    Gone,
    /// Its edit was added and may not have been kept. The same turn stopped the share, before anyone saw the edit.
    Lost,
}

/// The outcome of one turn.
#[derive(Drop)]
pub(crate) enum TurnOutcome {
    Answered(Answered),
    /// The request is pending until the history has more than `point` entries.
    Held { point: u64 },
    /// The request's edit may not have been kept. `point` is the history length after the stop.
    Lost { point: u64 },
}

impl TurnOutcome {
    /// Returns whether the answer added an entry.
    pub(crate) fn has_added(&self) -> bool
        ensures { result ≡ has_added self.now }
    {
        match self {
            TurnOutcome::Answered(answered) => answered.served.added,
            TurnOutcome::Held { .. } | TurnOutcome::Lost { .. } => false,
        }
    }
}

//! The report of a relay.

ghost use Rattle.std.specs.Prelude.{◌≡◌, IfSome, ◌≢◌};
ghost use Rattle.relay_share.specs.Ends.{end_of, ending_of};

use mirror_client::FollowError;

/// A listing that was relayed.
#[derive(Clone, Copy, PartialEq, Eq)]
pub struct Relayed {
    /// The revision of the listing.
    pub upstream: u32,
    pub delta: bool,
    /// The number of rows that the edit put.
    pub puts: u32,
    /// The number of ids that the edit dropped.
    pub drops: u32,
    /// The relay's own revision after the edit.
    pub revision: u32,
}

/// How a relay ended.
#[derive(Drop, PartialEq, Eq)]
pub enum RelayEnd {
    /// All rounds were done, and the relay logged out.
    Done,
    /// Row `index` of the last listing, counted from 0, cannot be read.
    Row { index: u64 },
    /// The relay's share is at a limit, and refused the last listing's edit.
    Full,
    /// The relay's share was stopped before the last listing's edit.
    Stopped,
    /// Following the share failed. If that was an allocation, the end is `Memory`.
    Peer(FollowError),
    /// An allocation failed.
    Memory,
}

/// The report of a relay.
#[derive(Drop)]
pub struct RelayReport {
    /// The listings that were relayed, in order.
    pub rounds: Vec<Relayed>,
    pub end: RelayEnd,
}

/// Returns the end for an error of the client.
pub(crate) fn end_of(error: FollowError) -> RelayEnd
    ensures { result ≡ end_of error }
{
    match error {
        FollowError::Memory => RelayEnd::Memory,
        error => RelayEnd::Peer(error),
    }
}

/// Returns the end for the status of an edit; `None` if the edit was made.
pub(crate) fn ending_of(status: u16) -> Option<RelayEnd>
    ensures { result ≡ ending_of status }
{
    match status {
        200 | 204 => None,
        503 => Some(RelayEnd::Stopped),
        507 => Some(RelayEnd::Full),
        _ => Some(RelayEnd::Memory),
    }
}

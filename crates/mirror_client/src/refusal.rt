//! Errors of an exchange with a peer.

use code_table::CodeError;
use mirror_core::MirrorError;
use std::alloc::{AllocError, AllocFailed};
use thiserror::Error;

/// Why following or pushing ended early. `at` counts the bytes of the peer's responses, from the first.
#[derive(Debug, Drop, PartialEq, Eq, Error)]
pub enum FollowError {
    /// A response has another status than the expected one.
    #[error("the peer refused with status {status}")]
    Refused { status: u16 },
    /// The bytes up to `at` begin no response. Or the response that ends at `at` has a body that is not exactly one
    /// tag, or lacks a number that is needed.
    #[error("the peer's reply is bad at {at}")]
    BadReply { at: u64 },
    /// The input ended inside a response.
    #[error("the peer ended at {at}")]
    Ended { at: u64 },
    /// The mirror rejects the listing.
    #[error("the peer's listing is refused")]
    Listing(MirrorError),
    /// The response has no table of content codes.
    #[error("the peer's reply is not a table of content codes")]
    Codes(CodeError),
    /// A read or a write failed; the connection's error counter increased.
    #[error("the connection failed")]
    LinkFault,
    #[error("out of memory")]
    Memory,
}

impl From<AllocError> for FollowError {
    ghost use Rattle.std.specs.Prelude.{◌≡◌};
    ghost use Rattle.mirror_client.specs.declared.refusal.FollowError.TheVariants.{Memory};

    ghost from_gives = { λ _ e. e ≡ Memory };

    fn from(_error: AllocError) -> FollowError {
        FollowError::Memory
    }
}

impl<T: Drop> From<AllocFailed<T>> for FollowError {
    ghost use Rattle.std.specs.Prelude.{◌≡◌};
    ghost use Rattle.mirror_client.specs.declared.refusal.FollowError.TheVariants.{Memory};

    ghost from_gives = { λ _ e. e ≡ Memory };

    fn from(_failed: AllocFailed<T>) -> FollowError {
        FollowError::Memory
    }
}

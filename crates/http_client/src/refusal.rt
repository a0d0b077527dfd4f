//! Errors of replies.

ghost use Rattle.std.specs.Prelude.{◌≡◌};

use std::alloc::{AllocError, AllocFailed};
use thiserror::Error;

/// Why bytes are not replies.
#[derive(Debug, Drop, PartialEq, Eq, Error)]
pub enum ReplyError {
    /// No reply can begin with the bytes; `at` is the number of bytes read, up to the one that shows it.
    #[error("bad reply at {at}")]
    Bad { at: u64 },
    #[error("out of memory")]
    Memory,
}

impl ReplyError {
    /// Returns an equal error.
    pub fn copy(&self) -> ReplyError
        ensures { result ≡ self.now }
    {
        match self {
            ReplyError::Bad { at } => ReplyError::Bad { at: *at },
            ReplyError::Memory => ReplyError::Memory,
        }
    }
}

impl From<AllocError> for ReplyError {
    ghost use Rattle.http_client.specs.declared.refusal.ReplyError.TheVariants.{Memory};

    ghost from_gives = { λ _ e. e ≡ Memory };

    fn from(_error: AllocError) -> ReplyError {
        ReplyError::Memory
    }
}

impl<T: Drop> From<AllocFailed<T>> for ReplyError {
    ghost use Rattle.http_client.specs.declared.refusal.ReplyError.TheVariants.{Memory};

    ghost from_gives = { λ _ e. e ≡ Memory };

    fn from(_error: AllocFailed<T>) -> ReplyError {
        ReplyError::Memory
    }
}

//! Why a message is refused.

ghost use Rattle.std.specs.Prelude.{◌≡◌};

use std::alloc::{AllocError, AllocFailed};
use thiserror::Error;

/// Why no message can begin with bytes, whatever follows; or `Memory`.
#[derive(Debug, Drop, PartialEq, Eq, Error)]
pub enum HeadError {
    /// The bytes are not a head of the grammar, with at most 64 fields; or, of a reply, the body's length is not
    /// determined.
    #[error("malformed head")]
    Head,
    /// The fields do not determine the length of the body.
    #[error("unknown body length")]
    Length,
    #[error("body too large")]
    BodyTooLarge,
    #[error("head too large")]
    HeadTooLarge,
    #[error("out of memory")]
    Memory,
}

impl HeadError {
    /// Returns an equal error.
    pub fn copy(&self) -> HeadError
        ensures { result ≡ self.now }
    {
        match self {
            HeadError::Head => HeadError::Head,
            HeadError::Length => HeadError::Length,
            HeadError::BodyTooLarge => HeadError::BodyTooLarge,
            HeadError::HeadTooLarge => HeadError::HeadTooLarge,
            HeadError::Memory => HeadError::Memory,
        }
    }
}

impl From<AllocError> for HeadError {
    ghost use Rattle.http_heads.specs.declared.refusal.HeadError.TheVariants.{Memory};

    ghost from_gives = { λ _ e. e ≡ Memory };

    fn from(_error: AllocError) -> HeadError {
        HeadError::Memory
    }
}

impl<T: Drop> From<AllocFailed<T>> for HeadError {
    ghost use Rattle.http_heads.specs.declared.refusal.HeadError.TheVariants.{Memory};

    ghost from_gives = { λ _ e. e ≡ Memory };

    fn from(_error: AllocFailed<T>) -> HeadError {
        HeadError::Memory
    }
}

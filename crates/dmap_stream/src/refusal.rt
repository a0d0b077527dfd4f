//! Why a reader refuses bytes.

ghost use Rattle.std.specs.Prelude.{◌≡◌};

use dmap_tags::Code;
use std::alloc::AllocError;
use thiserror::Error;

/// Why bytes were refused. `at` is the offset of the malformed tag's head.
#[derive(Debug, Drop, PartialEq, Eq, Error)]
pub enum StreamError {
    #[error("the tag at {at} is longer than the limit")]
    TooLarge { at: u64 },
    /// The tag would be at level 33, a top tag being at level 1.
    #[error("the tag at {at} is nested too deep")]
    TooDeep { at: u64 },
    #[error("the tag at {at} passes the end of its list")]
    Overrun { at: u64, code: Code },
    /// 1 to 7 bytes are left in the list, too few for a head.
    #[error("the list ends inside a head at {at}")]
    ShortHead { at: u64 },
    /// The bytes ended inside a top tag; `at` is their number.
    #[error("the bytes end inside a tag at {at}")]
    Truncated { at: u64 },
    #[error("out of memory")]
    Memory,
}

impl StreamError {
    /// Returns the same error.
    pub fn copy(&self) -> StreamError
        ensures { result ≡ self.now }
    {
        match self {
            StreamError::TooLarge { at } => StreamError::TooLarge { at: *at },
            StreamError::TooDeep { at } => StreamError::TooDeep { at: *at },
            StreamError::Overrun { at, code } => StreamError::Overrun {
                at: *at,
                code: *code,
            },
            StreamError::ShortHead { at } => StreamError::ShortHead { at: *at },
            StreamError::Truncated { at } => StreamError::Truncated { at: *at },
            StreamError::Memory => StreamError::Memory,
        }
    }
}

impl From<AllocError> for StreamError {
    ghost use Rattle.dmap_stream.specs.declared.refusal.StreamError.TheVariants.{Memory};

    ghost from_gives = { λ _ e. e ≡ Memory };

    fn from(_error: AllocError) -> StreamError {
        StreamError::Memory
    }
}

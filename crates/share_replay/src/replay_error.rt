//! Errors of a replay.

use outside_net::Failed;
use std::alloc::AllocError;
use thiserror::Error;

/// Why a replay was interrupted. Answers that it gave before remain.
#[derive(Debug, Drop, PartialEq, Eq, Error)]
pub enum ReplayError {
    /// The sink failed.
    #[error("write failed")]
    Failed,
    #[error("out of memory")]
    Memory,
}

impl From<AllocError> for ReplayError {
    ghost use Rattle.std.specs.Prelude.{◌≡◌};
    ghost use Rattle.share_replay.specs.declared.replay_error.ReplayError.TheVariants.{Memory};

    ghost from_gives = { λ _ e. e ≡ Memory };

    fn from(_error: AllocError) -> ReplayError {
        ReplayError::Memory
    }
}

impl From<Failed> for ReplayError {
    ghost use Rattle.std.specs.Prelude.{◌≡◌};
    ghost use Rattle.share_replay.specs.declared.replay_error.ReplayError.TheVariants.{Failed};

    ghost from_gives = { λ _ e. e ≡ Failed };

    fn from(_error: Failed) -> ReplayError {
        ReplayError::Failed
    }
}

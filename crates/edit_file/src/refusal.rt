//! Why a file was not opened.
ghost use Rattle.std.specs.Prelude.{◌≡◌};

use outside_disks::Failed;
use std::alloc::{AllocError, AllocFailed};
use thiserror::Error;

/// Why a file was not opened.
#[derive(Debug, Drop, Error)]
pub enum FileError {
    /// The bytes represent no list of batches. `at` is 0 if the first nine bytes are wrong, otherwise the first
    /// offset with neither a frame nor a closing byte.
    #[error("not an edit file at {at}")]
    NotEditFile { at: u64 },
    /// The disk failed.
    #[error("the edit file's disk failed")]
    Failed,
    /// An allocation failed.
    #[error("out of memory")]
    Memory,
}

impl From<Failed> for FileError {
    ghost use Rattle.edit_file.specs.declared.refusal.FileError.TheVariants.{Failed as failed};

    ghost from_gives = { λ _ e. e ≡ failed };

    fn from(_fault: Failed) -> FileError {
        FileError::Failed
    }
}

impl From<AllocError> for FileError {
    ghost use Rattle.edit_file.specs.declared.refusal.FileError.TheVariants.{Memory};

    ghost from_gives = { λ _ e. e ≡ Memory };

    fn from(_error: AllocError) -> FileError {
        FileError::Memory
    }
}

impl<T: Drop> From<AllocFailed<T>> for FileError {
    ghost use Rattle.edit_file.specs.declared.refusal.FileError.TheVariants.{Memory};

    ghost from_gives = { λ _ e. e ≡ Memory };

    fn from(_failed: AllocFailed<T>) -> FileError {
        FileError::Memory
    }
}

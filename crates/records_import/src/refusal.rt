//! Errors of records.

ghost use Rattle.std.specs.Prelude.{◌≡◌};

use item_model::RecordWhy;
use std::alloc::{AllocError, AllocFailed};
use thiserror::Error;

/// Errors of records. Columns count from 1, and rows from 1 after the header.
#[derive(Debug, Drop, PartialEq, Eq, Error)]
pub enum RecordError {
    /// The header's cell in this column is wrong or missing.
    #[error("header column {column}")]
    Header {
        column: u64,
    },
    /// A cell of a record is malformed.
    #[error("record {row} column {column}")]
    Field {
        row: u64,
        column: u64,
        why: RecordWhy,
    },
    /// A record has more or fewer cells than the header.
    #[error("record {row} length")]
    Length {
        row: u64,
    },
    /// This record is the first one too many for a batch.
    #[error("record {row} too many")]
    TooMany {
        row: u64,
    },
    #[error("memory")]
    Memory,
}

impl From<AllocError> for RecordError {
    ghost use Rattle.records_import.specs.declared.refusal.RecordError.TheVariants.{Memory};

    ghost from_gives = { λ _ e. e ≡ Memory };

    fn from(_error: AllocError) -> RecordError {
        RecordError::Memory
    }
}

impl<T: Drop> From<AllocFailed<T>> for RecordError {
    ghost use Rattle.records_import.specs.declared.refusal.RecordError.TheVariants.{Memory};

    ghost from_gives = { λ _ e. e ≡ Memory };

    fn from(_error: AllocFailed<T>) -> RecordError {
        RecordError::Memory
    }
}

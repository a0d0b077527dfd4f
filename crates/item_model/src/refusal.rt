//! Errors of queries and records.

ghost use Rattle.std.specs.Prelude.{◌≡◌};

use std::alloc::{AllocError, AllocFailed};
use thiserror::Error;

/// Why the text of a query is malformed at an offset.
#[derive(Clone, Copy, Debug, PartialEq, Eq)]
pub enum QueryWhy {
    /// The text ends before the query does.
    End,
    /// No query continues with this byte.
    Byte,
}

/// Errors of a query's text. A `place` is an offset in bytes, from 0.
#[derive(Debug, Drop, PartialEq, Eq, Error)]
pub enum QueryError {
    #[error("too long")]
    TooLong,
    #[error("too deep at {place}")]
    TooDeep { place: u64 },
    #[error("at {place}")]
    At { place: u64, why: QueryWhy },
    #[error("memory")]
    Memory,
}

impl From<AllocError> for QueryError {
    ghost use Rattle.item_model.specs.declared.refusal.QueryError.TheVariants.{Memory};

    ghost from_gives = { λ _ e. e ≡ Memory };

    fn from(_error: AllocError) -> QueryError {
        QueryError::Memory
    }
}

impl<T: Drop> From<AllocFailed<T>> for QueryError {
    ghost use Rattle.item_model.specs.declared.refusal.QueryError.TheVariants.{Memory};

    ghost from_gives = { λ _ e. e ≡ Memory };

    fn from(_error: AllocFailed<T>) -> QueryError {
        QueryError::Memory
    }
}

/// Errors of a cell of a record.
#[derive(Debug, Drop, PartialEq, Eq)]
pub enum RecordWhy {
    /// The first cell is not an operation.
    Op,
    /// The operation does not apply to the second cell.
    Kind,
    /// The cell is not 1 to 20 decimal digits.
    Number,
    /// The number is outside the range of the id or the property.
    Range,
    /// The text is not UTF-8, or too long.
    Text,
    /// A cell that the record does not use is not empty.
    Extra,
    /// A cell that the record needs is empty or missing.
    Missing,
    /// The cell's query is malformed.
    Query(QueryError),
}

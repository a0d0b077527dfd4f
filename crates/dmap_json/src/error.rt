//! Errors of the crate.

use std::alloc::{AllocError, AllocFailed};
use thiserror::Error;

/// Errors of `to_json` and `from_json`.
#[derive(Debug, Drop, PartialEq, Eq, Error)]
pub enum JsonError {
    /// The tag does not fit the table, or has more than 32 levels.
    #[error("the tag does not fit the table, or has more than 32 levels")]
    Unfit,
    /// The text is not JSON.
    #[error("the text is not JSON")]
    Syntax,
    /// A JSON value is not the object of a tag that fits the table there, or is at level 33. `index` is that of the
    /// first such value among those that have to be a tag's object, from 0, each before its members.
    #[error("value {index} is not the object of a tag that fits the table")]
    Shape { index: u64 },
    #[error("out of memory")]
    Memory,
}

impl From<AllocError> for JsonError {
    ghost use Rattle.std.specs.Prelude.{◌≡◌};
    ghost use Rattle.dmap_json.specs.declared.error.JsonError.TheVariants.{Memory};

    ghost from_gives = { λ _ e. e ≡ Memory };

    fn from(_: AllocError) -> JsonError {
        JsonError::Memory
    }
}

impl<T: Drop> From<AllocFailed<T>> for JsonError {
    ghost use Rattle.std.specs.Prelude.{◌≡◌};
    ghost use Rattle.dmap_json.specs.declared.error.JsonError.TheVariants.{Memory};

    ghost from_gives = { λ _ e. e ≡ Memory };

    fn from(_: AllocFailed<T>) -> JsonError {
        JsonError::Memory
    }
}

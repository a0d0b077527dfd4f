//! Errors of a relay.

ghost use Rattle.std.specs.Prelude.{◌≡◌};

use std::alloc::{AllocError, AllocFailed};
use thiserror::Error;

/// Why a relay cannot apply a listing.
#[derive(Debug, Drop, PartialEq, Eq, Error)]
pub enum Untaken {
    /// The listed tag at `index`, counted from 0, states no row.
    #[error("row {index} of the listing cannot be read")]
    Row { index: u64 },
    #[error("out of memory")]
    Memory,
}

impl From<AllocError> for Untaken {
    ghost use Rattle.relayed_rows.specs.declared.untaken.Untaken.TheVariants.{Memory};

    ghost from_gives = { λ _ e. e ≡ Memory };

    fn from(_error: AllocError) -> Untaken {
        Untaken::Memory
    }
}

impl<T: Drop> From<AllocFailed<T>> for Untaken {
    ghost use Rattle.relayed_rows.specs.declared.untaken.Untaken.TheVariants.{Memory};

    ghost from_gives = { λ _ e. e ≡ Memory };

    fn from(_error: AllocFailed<T>) -> Untaken {
        Untaken::Memory
    }
}

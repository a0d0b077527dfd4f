//! A keeper that keeps nothing.
ghost use Rattle.std.specs.Prelude.{⊤, false, None};

use crate::keeps::{Keeps, Lost};
use item_model::Batch;
use std::alloc::{AllocError, Global};

/// Keeps nothing, and so never fails.
#[derive(Clone, Copy)]
pub struct Unkept;

impl Keeps for Unkept {
    type Ready = ();

    ghost keeps = { λ _ _. ⊤ };

    ghost is_lost = { λ _. false };

    ghost faults = { λ _. 0 };

    ghost place = { λ _. None };

    ghost is_for = { λ _ _. ⊤ };

    fn ready(&self, _alloc: Global, _batch: &Batch) -> Result<(), AllocError> {
        Ok(())
    }

    fn keep(&mut self, _ready: ()) -> Result<(), Lost> {
        Ok(())
    }
}

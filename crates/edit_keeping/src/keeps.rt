//! Keepers of accepted batches.
ghost use Rattle.std.specs.Prelude.{◌≡◌, ◌≢◌, ℕ, List, [], ◌∷◌, ◌++◌, Bool, false, Option, IfOk, OnOk, OnErr, is_err};
ghost use Rattle.item_model.specs.declared.changes.Edit.{Edit};
ghost use Rattle.outside_disks.specs.Counts.{CountsFaults};
ghost use Rattle.records_import.specs.Written.{IsReadable};

use item_model::Batch;
use std::alloc::{AllocError, Global};
use thiserror::Error;

/// A batch may not have been kept, and the keeper takes no more.
#[derive(Debug, Drop, Error)]
#[error("a batch was not kept")]
pub struct Lost;

/// Keeps accepted batches, in order. `ready` makes all allocations, before a batch is accepted; `keep` does not
/// allocate.
pub trait Keeps {
    /// A batch that is ready to be kept.
    type Ready: Drop + Send;

    // The batches that were kept. A keeper that keeps nothing has every list.
    ghost keeps: { Self → List (List Edit) → Type 0 };

    // Whether an earlier call returned `Lost`.
    ghost is_lost: { Self → Bool };

    // The error counter of what it keeps batches on.
    ghost faults: { Self → ℕ };

    // The name under which its batches are found, if that name and the bytes there are known.
    ghost place: { Self → Option (List ℕ) };

    // The batch that was made ready.
    ghost is_for: { Self.Ready → List Edit → Type 0 };

    /// Makes a batch ready. It has at least one edit, and is one that reading records can return.
    ///
    /// # Errors
    ///
    /// Returns `AllocError` if an allocation fails.
    fn ready(&self, alloc: Global, batch: &Batch) -> Result<Self::Ready, AllocError>
        requires some { batch.now ≢ [] }
        requires readable { IsReadable batch.now }
        ensures ready { IfOk result (λ r. is_for r batch.now) };

    /// Keeps the batch after those before.
    ///
    /// # Errors
    ///
    /// Returns `Lost` and counts an error if the batch may not have been kept.
    fn keep(&mut self, ready: Self::Ready) -> Result<(), Lost>
        requires going { is_lost self.old ≡ false }
        ensures acknowledged { (batches : List (List Edit)) (batch : List Edit)
            → keeps self.old batches → is_for ready batch
            → OnOk result (keeps self.new (batches ++ batch ∷ [])) }
        ensures kept { (batches : List (List Edit)) → keeps self.old batches
            → OnErr result (keeps self.new batches) }
        ensures lost { is_lost self.new ≡ is_err result }
        ensures place_stays { place self.new ≡ place self.old }
        ensures count { CountsFaults (faults self.old) (faults self.new) result };
}

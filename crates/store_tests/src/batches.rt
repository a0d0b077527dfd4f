//! Batches of edits, read from records.

ghost use Rattle.std.specs.Prelude.{IfOk};
ghost use Rattle.item_model.specs.Valid.{AreValid};

use item_model::Batch;
use records_import::read_batch;
use std::alloc::{AllocError, Global};

pub(crate) fn batch_of(alloc: Global, records: &str) -> Result<Batch, AllocError>
    ensures { IfOk result (λ batch. AreValid batch) }
{
    match read_batch(alloc, records.as_bytes()) {
        Ok(batch) => Ok(batch),
        Err(_) => Err(AllocError),
    }
}

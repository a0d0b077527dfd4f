//! The frame of a batch.
ghost use Rattle.std.specs.Prelude.{◌≡◌, ◌≢◌, [], IfOk};
ghost use Rattle.records_import.specs.Written.{IsReadable};
ghost use Rattle.edit_file.specs.Frames.{IsFrameText};

use item_model::Batch;
use records_import::write_batch;
use std::alloc::{AllocError, Global};
use std::marker::Model;
use std::snapshot::Snapshot;

/// A batch as an edit file keeps it, ready to be appended without allocating.
#[derive(Drop)]
pub struct Frame {
    // what follows the open byte: the length of the records, the records, and a closing byte
    bytes: Vec<u8>,
    of: Snapshot<Batch>,
}

impl Model for Frame {
    ghost use Rattle.std.specs.Prelude.{List};
    ghost use Rattle.std.specs.Coded.{codes};
    ghost use Rattle.item_model.specs.QueryCells.{query_coded};
    ghost use Rattle.item_model.specs.declared.changes.Edit.{Edit};
    ghost use Rattle.edit_file.specs.Frames.{IsFrameText};

    ghost Value = { List Edit };

    ghost coded = { Prim.hlevel (codes, query_coded) };

    ghost view = { λ f. f.of.value };

    ghost invariant = { λ f. IsFrameText f.bytes.items f.of.value };
}

impl Frame {
    /// Makes the frame of `batch`, which has at least one edit and is one that reading records can return.
    ///
    /// # Errors
    ///
    /// Returns `AllocError` if an allocation fails, or if the records have 2^32 bytes or more.
    pub fn of(alloc: Global, batch: &Batch) -> Result<Frame, AllocError>
        requires some { batch.now ≢ [] }
        requires readable { IsReadable batch.now }
        ensures { IfOk result (λ frame. frame ≡ batch.now) }
    {
        let records = write_batch(alloc, batch)?;
        let records = records.as_slice();
        let Ok(count) = u32::try_from(records.len()) else {
            return Err(AllocError);
        };
        let mut bytes = Vec::from_slice(alloc, &count.to_be_bytes())?;
        bytes.extend_from_slice(records)?;
        bytes.push(0)?;
        Ok(Frame {
            bytes,
            of: Snapshot::of(batch),
        })
    }

    // Returns the frame without its open byte, and a closing byte.
    pub(crate) fn as_slice(&self) -> &[u8]
        ensures { IsFrameText result.now self.now }
    {
        self.bytes.as_slice()
    }
}

//! Rows with more than one owner.

ghost use Rattle.std.specs.Prelude.{◌≡◌, IfOk};

use crate::item::Row;
use std::alloc::{AllocError, Global};
use std::marker::Model;
use std::sync::Arc;

/// A row that may have several owners, in any threads. So a batch, the history with the batch and a store share its
/// texts. Contracts see the row.
#[derive(Debug)]
pub struct SharedRow {
    row: Arc<Row, Global>,
}

impl Drop for SharedRow {
    fn drop(self) {
        let SharedRow { row: _ } = self;
    }
}

impl Model for SharedRow {
    ghost use Rattle.std.specs.Arc.{arc_value};
    ghost use Rattle.item_model.specs.declared.item.Row.{Row};

    ghost Value = { Row };

    ghost view = { λ a. arc_value a.row };
}

impl SharedRow {
    /// Returns the row with one owner. Frees the spare capacity of its item, since no shared row changes.
    pub fn new(alloc: Global, mut row: Row) -> Result<SharedRow, AllocError>
        ensures { IfOk result (λ shared. shared ≡ row) }
    {
        row.item.shrink();
        match Arc::new(alloc, row) {
            Ok(row) => Ok(SharedRow { row }),
            Err(_) => Err(AllocError),
        }
    }

    pub fn row(&self) -> &Row
        ensures { result.now ≡ self.now }
    {
        &self.row
    }

    /// Adds an owner. Returns `AllocError` if the count of owners is at its maximum. Does not allocate.
    pub fn share(&self) -> Result<SharedRow, AllocError>
        ensures { IfOk result (λ shared. shared ≡ self.now) }
    {
        Ok(SharedRow {
            row: Arc::try_clone(&self.row)?,
        })
    }
}

// A shared row may be sent to another thread and be read by several: without this no crate above could do so.
fn may_be_shared<T: Send + Sync>() {}

fn rows_may_be_shared() {
    may_be_shared::<SharedRow>();
}

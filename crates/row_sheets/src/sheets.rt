//! The sheets of a list of rows.

ghost use Rattle.std.specs.Prelude.{◌≡◌, ℕ, [], length, IfOk};
ghost use Rattle.share_history.specs.Keyed.{at, IsAscending};
ghost use Rattle.row_sheets.specs.Sheets.{by_id, rows_in};
ghost use Rattle.row_sheets.specs.Changes.{changed, AreChanges};

use crate::sheet::Sheet;
use crate::turning::{count, turned};
use item_model::SharedRow;
use std::alloc::{AllocError, Global};
use std::marker::Model;
use std::sync::Arc;

/// Rows by their ids, on sheets that several lists may share. Contracts see the rows under their ids, in ascending order.
pub struct RowSheets {
    alloc: Global,
    sheets: Vec<Arc<Sheet, Global>>,
    // how many rows there are
    count: u32,
}

impl Drop for RowSheets {
    fn drop(self) {
        let RowSheets {
            alloc: _,
            sheets: _,
            count: _,
        } = self;
    }
}

impl Model for RowSheets {
    ghost use Rattle.std.specs.Prelude.{ℕ, List};
    ghost use Rattle.item_model.specs.declared.item.Row.{Row};
    ghost use Rattle.row_sheets.specs.Sheets.{by_id, rows_in, AreSheets};

    ghost Value = { List (ℕ × Row) };

    ghost view = { λ a. by_id (rows_in a.sheets.items) };

    ghost invariant = { λ a. AreSheets a.sheets.items a.count };
}

impl RowSheets {
    /// No rows. Does not allocate.
    pub fn new(alloc: Global) -> RowSheets
        ensures { result ≡ [] }
    {
        RowSheets {
            alloc,
            sheets: Vec::new(alloc),
            count: 0,
        }
    }

    /// How many rows there are. It is kept as a number, so no sheet is read.
    pub fn len(&self) -> u32
        ensures len { result ≡ length self.now }
        ensures ascending { IsAscending self.now }
    {
        self.count
    }

    /// Does nothing: it states that the ids ascend.
    pub fn ascend(&self)
        ensures { IsAscending self.now }
    {
        let _count = self.count;
    }

    /// The sheets, whose rows follow one another in ascending order of their ids.
    pub fn sheets(&self) -> &[Arc<Sheet, Global>]
        ensures rows { by_id (rows_in result.now) ≡ self.now }
        ensures ascending { IsAscending self.now }
    {
        self.sheets.as_slice()
    }

    /// One more owner of the same sheets. It copies a pointer for each sheet and reads no row.
    ///
    /// # Errors
    ///
    /// `AllocError` if there is no memory for the pointers, or if a sheet has too many owners.
    pub fn share(&self) -> Result<RowSheets, AllocError>
        ensures { IfOk result (λ shared. shared ≡ self.now) }
    {
        let mut sheets = Vec::with_capacity(self.alloc, self.sheets.len())?;
        for sheet in &self.sheets {
            sheets.push(Arc::try_clone(sheet)?)?;
        }
        Ok(RowSheets {
            alloc: self.alloc,
            sheets,
            count: self.count,
        })
    }

    /// Returns the rows after the changes: for each id its new row, or none if it is dropped. The ids of the changes
    /// ascend, and each new row has its id. Sheets that no change touches are shared with this list, which stays as it is.
    ///
    /// # Errors
    ///
    /// `AllocError` if memory runs out, if a sheet has too many owners, or if the tags of 64 rows take 4 GiB.
    pub fn with_changes(
        &self,
        changes: &[(u32, Option<SharedRow>)],
    ) -> Result<RowSheets, AllocError>
        requires { AreChanges changes.now }
        ensures each { IfOk result (λ new. (id : ℕ) → at id new ≡ changed changes.now self.now id) }
        ensures ascending { IfOk result (λ new. IsAscending new) }
    {
        let sheets = turned(self.alloc, self.sheets.as_slice(), changes)?;
        Ok(RowSheets {
            alloc: self.alloc,
            count: count(sheets.as_slice())?,
            sheets,
        })
    }
}

// Sheets go from thread to thread and are read in several.
fn may_be_shared<T: Send + Sync>() {}

fn sheets_may_be_shared() {
    may_be_shared::<RowSheets>();
}

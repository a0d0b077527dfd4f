//! Rows of the table.

ghost use Rattle.std.specs.Prelude.{◌≡◌, IfOk};

use dmap_tags::{Code, Kind, Text};
use std::alloc::AllocError;

/// A content code, with its name and the kind of its values.
#[derive(Drop)]
pub struct CodeRow {
    pub code: Code,
    /// The name in `/content-codes`, as `dmap.itemname`.
    pub name: Text,
    pub kind: Kind,
}

impl CodeRow {
    /// Returns a copy of the row.
    pub fn copy(&self) -> Result<CodeRow, AllocError>
        ensures { IfOk result (λ row. row ≡ self.now) }
    {
        Ok(CodeRow {
            code: self.code,
            name: self.name.copy()?,
            kind: self.kind,
        })
    }
}

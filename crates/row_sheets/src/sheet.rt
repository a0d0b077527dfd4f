//! One sheet.

ghost use Rattle.std.specs.Prelude.{◌≡◌, ◌≤◌, ◌<◌, ◌+◌, ◌-◌, ◌*◌, [], length, take, drop, slice_index, slice_index_or, All, IfOk};
ghost use Rattle.item_model.specs.declared.item.Row.{Row};
ghost use Rattle.item_model.specs.declared.property.Property.{Property};
ghost use Rattle.item_model.specs.Projection.{first_mentions};
ghost use Rattle.row_sheets.specs.Held.{held_properties};
ghost use Rattle.row_sheets.specs.Cells.{row_cells, joined, ids_of, column_length, HasNoOther, HasValues, IsLast};

use crate::cells::{Cells, RowTags};
use crate::columns::column_lens;
use crate::held::held_properties;
use item_model::{Property, SharedRow};
use std::alloc::{AllocError, Global};
use std::marker::Model;

/// Some rows, at least one, with the encoded tags of their properties.
pub struct Sheet {
    rows: Vec<SharedRow>,
    // the ids of the rows: they lie here so that whoever passes a sheet or lists it reads no row
    ids: Vec<u32>,
    properties: Vec<Property>,
    cells: Cells,
    // how many bytes the rows have of each property
    column_lens: Vec<u32>,
}

impl Drop for Sheet {
    fn drop(self) {
        let Sheet {
            rows: _,
            ids: _,
            properties: _,
            cells: _,
            column_lens: _,
        } = self;
    }
}

impl Model for Sheet {
    ghost use Rattle.row_sheets.specs.Spelled.{Spelled};
    ghost use Rattle.row_sheets.specs.Cells.{IsSheet};

    ghost Value = { Spelled };

    ghost view = { λ a. record { rows = a.rows.items; properties = a.properties.items } };

    ghost invariant = { λ a. IsSheet a.properties.items a.rows.items a.cells.bytes.items a.cells.starts.items a.ids.items a.column_lens.items };
}

impl Sheet {
    // The sheet of these rows.
    pub(crate) fn of(alloc: Global, mut rows: Vec<SharedRow>) -> Result<Sheet, AllocError>
        requires { 0 < length rows.items }
        ensures { IfOk result (λ sheet. sheet.rows ≡ rows.items) }
    {
        rows.shrink_to_fit();
        let properties = held_properties(alloc, rows.as_slice())?;
        let cells = Cells::of(alloc, rows.as_slice(), properties.as_slice())?;
        let column_lens = column_lens(alloc, &cells, rows.as_slice(), properties.as_slice())?;
        let ids = ids_of(alloc, rows.as_slice())?;
        Ok(Sheet {
            rows,
            ids,
            properties,
            cells,
            column_lens,
        })
    }

    /// The rows, of which there is at least one.
    pub fn rows(&self) -> &[SharedRow]
        ensures rows { result.now ≡ self.now.rows }
        ensures some { 0 < length self.now.rows }
        ensures values { All HasValues self.now.rows }
    {
        self.rows.as_slice()
    }

    /// The properties that some row of the sheet has, each once. Those that a listing shows by default come first, in
    /// that order, and then the others in the order of listings.
    pub fn properties(&self) -> &[Property]
        ensures properties { result.now ≡ self.now.properties }
        ensures held { self.now.properties ≡ held_properties self.now.rows }
        ensures once { first_mentions self.now.properties ≡ self.now.properties }
        ensures others { All (HasNoOther self.now.properties) self.now.rows }
    {
        self.properties.as_slice()
    }

    /// The encoded tags of the row at the index `row`, of the properties from the index `from` up to the index `to`. A
    /// property that the row lacks has no bytes. It reads two numbers and copies nothing.
    pub fn row_tags(&self, row: usize, from: usize, to: usize) -> RowTags<'_>
        requires row { row < length self.now.rows }
        requires order { from ≤ to }
        requires within { to ≤ length self.now.properties }
        ensures within { result.len ≤ length result.bytes.now }
        ensures tags { (d : Row) → take result.len result.bytes.now
            ≡ joined (row_cells (take (to - from) (drop from self.now.properties))
            (slice_index_or self.now.rows row d)) }
    {
        self.cells.tags(
            self.rows.as_slice(),
            self.properties.as_slice(),
            row,
            from,
            to,
        )
    }

    /// How many bytes all rows have of the property at the index. It is kept as a number, so it is read and not counted.
    pub fn column_len(&self, index: usize) -> u64
        requires { index < length self.now.properties }
        ensures { (d : Property) → result
            ≡ column_length self.now.rows (slice_index_or self.now.properties index d) }
    {
        u64::from(self.column_lens[index])
    }

    /// The ids of the rows, in order. It reads no row.
    pub fn ids(&self) -> &[u32]
        ensures { result.now ≡ ids_of self.now.rows }
    {
        self.ids.as_slice()
    }

    // The id of the last row.
    pub(crate) fn last(&self) -> u32
        ensures last { IsLast self.now.rows result }
        ensures some { 0 < length self.now.rows }
    {
        self.ids[self.ids.len() - 1]
    }
}

// The ids of rows.
fn ids_of(alloc: Global, rows: &[SharedRow]) -> Result<Vec<u32>, AllocError>
    ensures { IfOk result (λ ids. ids.items ≡ ids_of rows.now) }
{
    let mut ids = Vec::with_capacity(alloc, rows.len())?;
    for row in rows {
        ids.push(row.row().id)?;
    }
    Ok(ids)
}

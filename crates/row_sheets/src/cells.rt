//! The cells of a sheet: the encoded tags of its rows in one buffer.

ghost use Rattle.std.specs.Prelude.{◌≡◌, ◌≤◌, ◌<◌, ◌+◌, ◌-◌, ◌*◌, ◌++◌, ◌∷◌, [], ℕ, List, length, map, take, drop, slice_index, slice_index_or, All, IfOk, OnOk};
ghost use Rattle.item_model.specs.declared.item.Row.{Row};
ghost use Rattle.row_sheets.specs.Cells.{cell, row_cells, cells_of, joined, AreCells, HasValue};

use crate::tags::push_cell;
use item_model::{Item, Property, SharedRow};
use std::alloc::{AllocError, Global};

/// The encoded tags of a row that are neighbours on its sheet: the first `len` of these bytes. The bytes of the cells
/// after them follow, up to the end of the sheet's buffer, so a copy of a constant size can take more than `len`.
#[derive(Clone, Copy)]
pub struct RowTags<'a> {
    pub bytes: &'a [u8],
    pub len: usize,
}

// The cells one after the other, and where each one starts and the last one ends.
pub(crate) struct Cells {
    bytes: Vec<u8>,
    starts: Vec<u32>,
}

impl Drop for Cells {
    fn drop(self) {
        let Cells {
            bytes: _,
            starts: _,
        } = self;
    }
}

impl Cells {
    // The cells of all rows, one for each property.
    pub(crate) fn of(
        alloc: Global,
        rows: &[SharedRow],
        properties: &[Property],
    ) -> Result<Cells, AllocError>
        ensures cells { IfOk result (λ cells. AreCells
            (cells_of properties.now rows.now) cells.bytes.items cells.starts.items) }
        ensures values { IfOk result
            (λ _. All (λ row. All (HasValue row.item) properties.now) rows.now) }
    {
        let mut cells = Cells::new(alloc)?;
        for row in rows {
            cells.push_row(&row.row().item, properties)?;
        }
        cells.bytes.shrink_to_fit();
        cells.starts.shrink_to_fit();
        Ok(cells)
    }

    fn new(alloc: Global) -> Result<Cells, AllocError>
        ensures { IfOk result (λ cells. AreCells [] cells.bytes.items cells.starts.items) }
    {
        let mut starts = Vec::new(alloc);
        starts.push(0)?;
        Ok(Cells {
            bytes: Vec::new(alloc),
            starts,
        })
    }

    fn push_row(&mut self, item: &Item, properties: &[Property]) -> Result<(), AllocError>
        ensures cells { OnOk result ((done : List (List ℕ))
            → AreCells done self.old.bytes.items self.old.starts.items
            → AreCells (done ++ map (cell item.now) properties.now) self.new.bytes.items
            self.new.starts.items) }
        ensures values { OnOk result (All (HasValue item.now) properties.now) }
    {
        for property in properties {
            self.push(item, *property)?;
        }
        Ok(())
    }

    fn push(&mut self, item: &Item, property: Property) -> Result<(), AllocError>
        ensures cells { OnOk result ((done : List (List ℕ))
            → AreCells done self.old.bytes.items self.old.starts.items
            → AreCells (done ++ cell item.now property ∷ []) self.new.bytes.items
            self.new.starts.items) }
        ensures value { HasValue item.now property }
    {
        push_cell(&mut self.bytes, item, property)?;
        let Ok(end) = u32::try_from(self.bytes.len()) else {
            return Err(AllocError);
        };
        self.starts.push(end)?;
        Ok(())
    }

    // The tags of a row, of the properties from the index `from` up to the index `to`. The contract alone needs the
    // rows.
    pub(crate) fn tags(
        &self,
        rows: &[SharedRow],
        properties: &[Property],
        row: usize,
        from: usize,
        to: usize,
    ) -> RowTags<'_>
        requires cells { AreCells (cells_of properties.now rows.now) self.now.bytes.items
            self.now.starts.items }
        requires row { row < length rows.now }
        requires order { from ≤ to }
        requires within { to ≤ length properties.now }
        ensures within { result.len ≤ length result.bytes.now }
        ensures tags { (d : Row) → take result.len result.bytes.now
            ≡ joined (row_cells (take (to - from) (drop from properties.now))
            (slice_index_or rows.now row d)) }
    {
        self.part(properties.len(), row, from, to)
    }

    // The bytes of the cells from `from` up to `to` in a row of `wide` cells.
    fn part(&self, wide: usize, row: usize, from: usize, to: usize) -> RowTags<'_>
        requires order { from ≤ to }
        requires within { row * wide + to < length self.now.starts.items }
        requires begin { slice_index self.now.starts.items (row * wide + from)
            ≤ slice_index self.now.starts.items (row * wide + to) }
        requires end { slice_index self.now.starts.items (row * wide + to)
            ≤ length self.now.bytes.items }
        ensures len { result.len ≡ slice_index self.now.starts.items
            (row * wide + to) - slice_index self.now.starts.items (row * wide + from) }
        ensures bytes { result.bytes.now
            ≡ drop (slice_index self.now.starts.items (row * wide + from)) self.now.bytes.items }
    {
        let starts = self.starts.as_slice();
        let count = starts.len();
        let begin = starts[row * wide + from] as usize;
        let end = starts[row * wide + to] as usize;
        let (_, bytes) = self.bytes.as_slice().split_at(begin);
        RowTags {
            bytes,
            len: end - begin,
        }
    }
}

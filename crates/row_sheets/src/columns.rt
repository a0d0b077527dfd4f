//! The columns of a sheet: how many bytes its rows have of each property.

ghost use Rattle.std.specs.Prelude.{◌≡◌, ◌<◌, length, map, slice_index_or, IfOk};
ghost use Rattle.item_model.specs.declared.property.Property.{Property};
ghost use Rattle.row_sheets.specs.Cells.{cells_of, column_length, AreCells};

use crate::cells::Cells;
use crate::turning::plus;
use item_model::{Property, SharedRow};
use std::alloc::{AllocError, Global};

// The length of each column.
pub(crate) fn column_lens(
    alloc: Global,
    cells: &Cells,
    rows: &[SharedRow],
    properties: &[Property],
) -> Result<Vec<u32>, AllocError>
    requires { AreCells (cells_of properties.now rows.now) cells.now.bytes.items
        cells.now.starts.items }
    ensures { IfOk result (λ lens. lens.items ≡ map (column_length rows.now) properties.now) }
{
    let mut lens = Vec::with_capacity(alloc, properties.len())?;
    for index in 0..properties.len() {
        lens.push(column_len(cells, rows, properties, index)?)?;
    }
    Ok(lens)
}

// The length of the column of the property at an index.
fn column_len(
    cells: &Cells,
    rows: &[SharedRow],
    properties: &[Property],
    index: usize,
) -> Result<u32, AllocError>
    requires cells { AreCells (cells_of properties.now rows.now) cells.now.bytes.items
        cells.now.starts.items }
    requires index { index < length properties.now }
    ensures { IfOk result (λ len. (d : Property)
        → len ≡ column_length rows.now (slice_index_or properties.now index d)) }
{
    let mut len = 0;
    for row in 0..rows.len() {
        let tags = cells.tags(rows, properties, row, index, index + 1);
        len = plus(len, tags.len)?;
    }
    Ok(len)
}

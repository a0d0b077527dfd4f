// Rows of cells, written as comma separated text.

ghost use Rattle.std.specs.Prelude.{◌≡◌, ◌++◌, [], All, IfOk, OnOk, ℕ, List, map, Some};
ghost use Rattle.csv.specs.Records.{fields_of};
ghost use Rattle.csv.specs.Writing.{default_writer, row_text};
ghost use Rattle.records_import.specs.Table.{HasCell, IsUnmarked, table_of, table_text};
ghost use Rattle.records_import.specs.Writing.{HasWritten};

use csv::{ByteRecord, Writer, WriterBuilder};
use std::alloc::{AllocError, Global};

/// Returns a writer of rows into memory, with no row written.
pub fn table_writer(alloc: Global) -> Writer<Vec<u8>>
    ensures { HasWritten (λ v. Some v.items) result [] }
{
    WriterBuilder::new()
        .flexible(true)
        .from_writer(Vec::new(alloc))
}

/// Appends one row. After an error the writer must not be used again.
pub fn write_row(writer: &mut Writer<Vec<u8>>, row: &ByteRecord) -> Result<(), AllocError>
    ensures { (text : List ℕ) → HasWritten (λ v. Some v.items) writer.old text
        → OnOk result (HasWritten (λ v. Some v.items) writer.new (text ++ row_text default_writer (fields_of row.now))) }
{
    match writer.write_byte_record(row) {
        Ok(()) => Ok(()),
        Err(_) => Err(AllocError),
    }
}

/// Returns the text of all rows written.
pub fn written_text(writer: Writer<Vec<u8>>) -> Result<Vec<u8>, AllocError>
    ensures { (text : List ℕ) → HasWritten (λ v. Some v.items) writer text
        → IfOk result (λ v. v.items ≡ text) }
{
    match writer.into_inner() {
        Ok(text) => Ok(text),
        Err(_) => Err(AllocError),
    }
}

/// Returns the text of these rows in the default form of `csv`, one line for each.
pub fn write_rows(alloc: Global, rows: &[ByteRecord]) -> Result<Vec<u8>, AllocError>
    ensures text { IfOk result (λ v. v.items ≡ table_text (map fields_of rows.now)) }
    ensures reads_back { IfOk result (λ v. All HasCell (map fields_of rows.now) → IsUnmarked v.items
        → table_of v.items ≡ map fields_of rows.now) }
{
    let mut writer = table_writer(alloc);
    for row in rows {
        write_row(&mut writer, row)?;
    }
    written_text(writer)
}

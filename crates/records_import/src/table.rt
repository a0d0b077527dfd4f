// Rows of cells, read from comma separated text and written to it.

ghost use Rattle.std.specs.Prelude.{◌≡◌, ◌++◌, ◌∷◌, [], IfOk, OnOk, get_or, length, map, take};
ghost use Rattle.csv.specs.Records.{fields_of};
ghost use Rattle.records_import.specs.Table.{table_of};

use csv::{ByteRecord, ReaderBuilder};
use std::alloc::{AllocError, Global};

/// Returns the first `most` rows of a text, or all if it has fewer. Reads the text once, in the default form of
/// `csv`, and not past the last row that it returns.
pub fn rows_of(alloc: Global, text: &[u8], most: usize) -> Result<Vec<ByteRecord>, AllocError>
    ensures { IfOk result (λ v. map fields_of v.items ≡ take most (table_of text.now)) }
{
    let mut reader = ReaderBuilder::new()
        .has_headers(false)
        .flexible(true)
        .from_reader(alloc, text);
    let mut row = ByteRecord::new(alloc);
    let mut rows = Vec::new(alloc);
    'rows: for _ in 0..most {
        match reader.read_byte_record(&mut row) {
            Ok(true) => push_copy(&mut rows, &row)?,
            Ok(false) => return Ok(rows),
            Err(_) => return Err(AllocError),
        }
    }
    Ok(rows)
}

fn push_copy(rows: &mut Vec<ByteRecord>, row: &ByteRecord) -> Result<(), AllocError>
    ensures { OnOk result (rows.new.items ≡ rows.old.items ++ row.now ∷ []) }
{
    rows.push(row.clone()?)?;
    Ok(())
}

/// Returns the cell of a row at index `place`, or an empty cell if the row is shorter.
pub fn cell(row: &ByteRecord, place: usize) -> &[u8]
    ensures { result.now ≡ get_or (fields_of row.now) place [] }
{
    match row.get(place) {
        Some(bytes) => bytes,
        None => b"",
    }
}

/// Returns the number of cells of a row.
pub fn width(row: &ByteRecord) -> usize
    ensures { result ≡ length (fields_of row.now) }
{
    row.len()
}

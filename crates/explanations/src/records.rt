//! Why records are refused, with the line of the file, the name of the column and the cell.

use crate::queries::error_reason;
use crate::quoting::quoted;
use csv::ByteRecord;
use item_model::RecordWhy;
use records_import::{MOST_RECORDS, RecordError, cell, read_batch, rows_of, width};
use std::alloc::{AllocError, Global};
use std::str::from_utf8;

/// The names of the first columns.
const FIRST_COLUMNS: &str = "op,kind,id";

/// Returns why `bytes` are refused as records, or `None` if they are a batch.
pub fn records_reason(alloc: Global, bytes: &[u8]) -> Result<Option<String>, AllocError> {
    match read_batch(alloc, bytes) {
        Ok(_) => Ok(None),
        Err(RecordError::Memory) => Err(AllocError),
        Err(error) => {
            let rows = rows_of(alloc, bytes, MOST_RECORDS + 2)?;
            Ok(Some(error_words(alloc, bytes, rows.as_slice(), &error)?))
        }
    }
}

fn error_words(
    alloc: Global,
    bytes: &[u8],
    rows: &[ByteRecord],
    error: &RecordError,
) -> Result<String, AllocError> {
    match error {
        RecordError::Header { column } => header_words(alloc, bytes, rows.first(), *column),
        RecordError::Field { row, column, why } => {
            field_words(alloc, rows.first(), row_at(rows, *row), *column, why)
        }
        RecordError::Length { row } => length_words(alloc, rows.first(), row_at(rows, *row)),
        RecordError::TooMany { .. } => {
            format!(in alloc;
                "there are more than {MOST_RECORDS} records, which is the most of one batch"
            )
        }
        RecordError::Memory => Err(AllocError),
    }
}

/// Returns the row of record number `row`, counted from 1 after the header.
fn row_at(rows: &[ByteRecord], row: u64) -> Option<&ByteRecord> {
    match usize::try_from(row) {
        Ok(index) => rows.get(index),
        Err(_) => None,
    }
}

/// Returns the line of the file on which a row begins, or 0 if that is not known.
pub fn line_of(row: Option<&ByteRecord>) -> u64 {
    match row {
        Some(row) => match row.position() {
            Some(position) => position.line(),
            None => 0,
        },
        None => 0,
    }
}

/// Returns the cell in a column, which counts from 1.
fn cell_at(row: Option<&ByteRecord>, column: u64) -> &[u8] {
    match (row, usize::try_from(column.saturating_sub(1))) {
        (Some(row), Ok(index)) => cell(row, index),
        _ => b"",
    }
}

fn header_words(
    alloc: Global,
    bytes: &[u8],
    header: Option<&ByteRecord>,
    column: u64,
) -> Result<String, AllocError> {
    if bytes.starts_with(b"\xff\xfe") || bytes.starts_with(b"\xfe\xff") {
        return String::from_str(alloc, "the records are in UTF-16: save them as UTF-8");
    }
    if cell_at(header, 1).contains(&b';') {
        return format!(in alloc;
            "the first line begins with {FIRST_COLUMNS}, with commas and not semicolons between the cells"
        );
    }
    let name = quoted(alloc, cell_at(header, column))?;
    if column <= 3 {
        return format!(in alloc;
            "the first line has to begin with {FIRST_COLUMNS}, and its column {column} is {name}"
        );
    }
    if is_repeated(header, column) {
        return format!(in alloc;
            "the name {name} is there twice (column {column} of the first line)"
        );
    }
    format!(in alloc; "no property has the name {name} (column {column} of the first line)")
}

/// Returns whether the name in a column is also in one before it.
fn is_repeated(header: Option<&ByteRecord>, column: u64) -> bool {
    let name = cell_at(header, column);
    for other in 1..column {
        if cell_at(header, other) == name {
            return true;
        }
    }
    false
}

fn length_words(
    alloc: Global,
    header: Option<&ByteRecord>,
    row: Option<&ByteRecord>,
) -> Result<String, AllocError> {
    let line = line_of(row);
    let found = cells_of(row);
    let wanted = cells_of(header);
    format!(in alloc; "line {line} has {found} cells, and the first line has {wanted}")
}

fn cells_of(row: Option<&ByteRecord>) -> usize {
    match row {
        Some(row) => width(row),
        None => 0,
    }
}

fn field_words(
    alloc: Global,
    header: Option<&ByteRecord>,
    row: Option<&ByteRecord>,
    column: u64,
    why: &RecordWhy,
) -> Result<String, AllocError> {
    let line = line_of(row);
    let name = quoted(alloc, cell_at(header, column))?;
    let text = cell_at(row, column);
    let value = quoted(alloc, text)?;
    let reason = why_words(alloc, text, why)?;
    if column > cells_of(header) as u64 {
        return format!(in alloc; "line {line}: {reason}, and the first line has no column for it");
    }
    format!(in alloc; "line {line}, column {name}: {value}: {reason}")
}

fn why_words(alloc: Global, text: &[u8], why: &RecordWhy) -> Result<String, AllocError> {
    let words = match why {
        RecordWhy::Op => "put or drop is wanted",
        RecordWhy::Kind => "item, list, rule (only with put) or member is wanted",
        RecordWhy::Number => "a decimal number is wanted",
        RecordWhy::Range => "the number is out of the range of this column",
        RecordWhy::Text => "at most 255 bytes of UTF-8 are wanted",
        RecordWhy::Extra => "a record of this kind has nothing in this column",
        RecordWhy::Missing => "a record of this kind needs this cell",
        RecordWhy::Query(error) => match from_utf8(text) {
            Ok(query) => return error_reason(alloc, query, error),
            Err(_) => "the query is not UTF-8",
        },
    };
    String::from_str(alloc, words)
}

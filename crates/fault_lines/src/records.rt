//! The line of malformed records.

ghost use Rattle.std.specs.Prelude.{◌≡◌, ◌++◌, IfOk, OnOk};
ghost use Rattle.fault_lines.specs.Records.{cell_reason, records_text, records_line};

use crate::numbers::push_number;
use crate::queries::push_query;
use item_model::RecordWhy;
use records_import::RecordError;
use std::alloc::{AllocError, Global};

/// Returns the line of an error of records. Columns count from 1, and records from 1 after the header.
pub fn records_line(alloc: Global, error: &RecordError) -> Result<Vec<u8>, AllocError>
    ensures text { IfOk result (λ line. line.items ≡ records_line error.now) }
{
    let mut line = Vec::new(alloc);
    push_records(&mut line, error)?;
    line.push(b'\n')?;
    Ok(line)
}

fn push_records(line: &mut Vec<u8>, error: &RecordError) -> Result<(), AllocError>
    ensures { OnOk result (line.new.items ≡ line.old.items ++ records_text error.now) }
{
    match error {
        RecordError::Header { column } => push_number(line, b"records: header column ", *column),
        RecordError::Field { row, column, why } => {
            push_number(line, b"records: record ", *row)?;
            push_number(line, b" column ", *column)?;
            line.push(b' ')?;
            push_cell_reason(line, why)
        }
        RecordError::Length { row } => {
            push_number(line, b"records: record ", *row)?;
            line.extend_from_slice(b" length")
        }
        RecordError::TooMany { row } => {
            push_number(line, b"records: record ", *row)?;
            line.extend_from_slice(b" too many")
        }
        RecordError::Memory => line.extend_from_slice(b"memory"),
    }
}

fn push_cell_reason(line: &mut Vec<u8>, why: &RecordWhy) -> Result<(), AllocError>
    ensures { OnOk result (line.new.items ≡ line.old.items ++ cell_reason why.now) }
{
    match why {
        RecordWhy::Op => line.extend_from_slice(b"op"),
        RecordWhy::Kind => line.extend_from_slice(b"kind"),
        RecordWhy::Number => line.extend_from_slice(b"number"),
        RecordWhy::Range => line.extend_from_slice(b"range"),
        RecordWhy::Text => line.extend_from_slice(b"text"),
        RecordWhy::Extra => line.extend_from_slice(b"extra"),
        RecordWhy::Missing => line.extend_from_slice(b"missing"),
        RecordWhy::Query(error) => push_query(line, error),
    }
}

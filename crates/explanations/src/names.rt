//! Warnings of names that no property has. Such a name is accepted, and matches nothing.

use crate::quoting::quoted_text;
use crate::records::line_of;
use csv::ByteRecord;
use item_model::{Property, Query};
use records_import::{MOST_RECORDS, cell, rows_of, width};
use song_query::{QUERY_BYTES, read};
use std::alloc::{AllocError, Global};
use std::str::from_utf8;

/// The most warnings of the rules of one input.
const RULE_WARNINGS: usize = 10;

/// Returns a warning for each condition of a query on a name that no property has. `place` says where the query is.
pub fn query_warnings(alloc: Global, query: &str, place: &str) -> Result<Vec<String>, AllocError> {
    let mut warnings = Vec::new(alloc);
    if let Ok(query) = read(alloc, query) {
        push_unknown(alloc, &query, place, &mut warnings)?;
    }
    Ok(warnings)
}

/// Appends a warning for each condition of `query` on a name that no property has.
fn push_unknown(
    alloc: Global,
    query: &Query,
    place: &str,
    warnings: &mut Vec<String>,
) -> Result<(), AllocError> {
    let mut waiting = Vec::new(alloc);
    waiting.push(query)?;
    // A query has fewer parts than its text has bytes.
    for _ in 0..QUERY_BYTES {
        match waiting.pop() {
            Some(Query::Cond(cond)) => {
                if Property::by_name(cond.name.as_str()).is_none() {
                    warnings.push(unknown(alloc, cond.name.as_str(), place)?)?;
                }
            }
            Some(Query::And(parts) | Query::Or(parts)) => {
                for part in parts.as_slice() {
                    waiting.push(part)?;
                }
            }
            None => return Ok(()),
        }
    }
    Ok(())
}

fn unknown(alloc: Global, name: &str, place: &str) -> Result<String, AllocError> {
    let name = quoted_text(alloc, name)?;
    format!(in alloc; "warning: no property has the name {name} in {place}")
}

/// Returns a warning for each name of `--meta` that no property has.
pub fn meta_warnings(alloc: Global, meta: &str) -> Result<Vec<String>, AllocError> {
    let mut warnings = Vec::new(alloc);
    if meta == "all" {
        return Ok(warnings);
    }
    for name in meta.split(',') {
        if !name.is_empty() && Property::by_name(name).is_none() {
            warnings.push(unknown(alloc, name, "--meta")?)?;
        }
    }
    Ok(warnings)
}

/// Returns a warning for each name in a rule's query of these records that no property has, up to a limit.
pub fn rule_warnings(alloc: Global, bytes: &[u8]) -> Result<Vec<String>, AllocError> {
    let rows = rows_of(alloc, bytes, MOST_RECORDS + 2)?;
    let mut warnings = Vec::new(alloc);
    let Some(column) = query_column(rows.as_slice()) else {
        return Ok(warnings);
    };
    for row in rows.as_slice() {
        if warnings.len() < RULE_WARNINGS {
            push_rule(alloc, row, column, &mut warnings)?;
        }
    }
    Ok(warnings)
}

/// Returns the index of the column of queries, if the first row names one.
fn query_column(rows: &[ByteRecord]) -> Option<usize> {
    let header = rows.first()?;
    for index in 0..width(header) {
        if cell(header, index) == b"query".as_slice() {
            return Some(index);
        }
    }
    None
}

fn push_rule(
    alloc: Global,
    row: &ByteRecord,
    column: usize,
    warnings: &mut Vec<String>,
) -> Result<(), AllocError> {
    let Ok(text) = from_utf8(cell(row, column)) else {
        return Ok(());
    };
    if text.is_empty() {
        return Ok(());
    }
    let Ok(query) = read(alloc, text) else {
        return Ok(());
    };
    let line = line_of(Some(row));
    let place = format!(in alloc; "the query of line {line}")?;
    push_unknown(alloc, &query, place.as_str(), warnings)
}

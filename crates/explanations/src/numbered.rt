//! Why a text of lines is refused, with the line.

use crate::quoting::quoted;
use code_table::CodeTable;
use dmap_json::{JsonError, from_json};
use dmap_show::{ShowError, read_show};
use share_replay::{Script, ScriptError};
use std::alloc::{AllocError, Global};
use std::str::from_utf8;

/// Returns why `bytes` are refused as the text that `show` writes, or `None` if they are not.
pub fn text_reason(alloc: Global, bytes: &[u8]) -> Result<Option<String>, AllocError> {
    let text = match from_utf8(bytes) {
        Ok(text) => text,
        Err(error) => {
            let line = lines_before(bytes, error.valid_up_to()).saturating_add(1);
            return Ok(Some(format!(in alloc; "line {line} is not UTF-8")?));
        }
    };
    let table = CodeTable::standard(alloc)?;
    match read_show(alloc, text, &table) {
        Ok(_) => Ok(None),
        Err(ShowError::Line { line }) => {
            let shown = quoted(alloc, line_at(bytes, line))?;
            Ok(Some(format!(in alloc;
                "line {line}: {shown}: no text of tags goes on with this line"
            )?))
        }
        Err(ShowError::Memory) => Err(AllocError),
    }
}

/// Returns why `bytes` are refused as lines of JSON, or `None` if they are not.
pub fn json_reason(alloc: Global, bytes: &[u8]) -> Result<Option<String>, AllocError> {
    let table = CodeTable::standard(alloc)?;
    let mut number = 0u64;
    let mut rest = bytes;
    for _ in 0..bytes.len() {
        number = number.saturating_add(1);
        let Some((line, after)) = first_line(rest) else {
            break;
        };
        if let Some(words) = json_words(alloc, &table, number, line)? {
            return Ok(Some(words));
        }
        rest = after;
        if rest.is_empty() {
            return Ok(None);
        }
    }
    if rest.is_empty() {
        return Ok(None);
    }
    Ok(Some(format!(in alloc; "line {number}: the last line has no line feed at its end")?))
}

fn json_words(
    alloc: Global,
    table: &CodeTable,
    number: u64,
    line: &[u8],
) -> Result<Option<String>, AllocError> {
    let Ok(text) = from_utf8(line) else {
        return Ok(Some(format!(in alloc; "line {number} is not UTF-8")?));
    };
    let error = match from_json(alloc, text, table) {
        Ok(_) => return Ok(None),
        Err(error) => error,
    };
    let shown = quoted(alloc, line)?;
    let words = match error {
        JsonError::Memory => return Err(AllocError),
        JsonError::Syntax => format!(in alloc; "line {number}: {shown}: it is not JSON")?,
        JsonError::Unfit => format!(in alloc;
            "line {number}: {shown}: it is not the JSON of a tag"
        )?,
        JsonError::Shape { index } => shape_words(alloc, number, index, shown.as_str())?,
    };
    Ok(Some(words))
}

fn shape_words(alloc: Global, number: u64, index: u64, shown: &str) -> Result<String, AllocError> {
    let place = index.saturating_add(1);
    format!(in alloc;
        "line {number}: {shown}: its tag number {place} does not have the three members code, kind and value as they fit"
    )
}

/// Returns why `bytes` are refused as a script of `replay`, or `None` if they are not.
pub fn script_reason(alloc: Global, bytes: &[u8]) -> Result<Option<String>, AllocError> {
    match Script::read(alloc, bytes) {
        Ok(_) => Ok(None),
        Err(ScriptError::Line { line }) => {
            let shown = quoted(alloc, line_at(bytes, line))?;
            Ok(Some(format!(in alloc;
                "line {line}: {shown}: this is no line of a script, or not here"
            )?))
        }
        Err(ScriptError::Memory) => Err(AllocError),
    }
}

/// Returns the first line without its line feed, and the bytes after that; `None` if there is no line feed.
fn first_line(bytes: &[u8]) -> Option<(&[u8], &[u8])> {
    for place in 0..bytes.len() {
        if bytes[place] == b'\n' {
            let (line, rest) = bytes.split_at(place);
            return Some((line, rest.get(1..)?));
        }
    }
    None
}

/// Returns line number `number` of a text, counted from 1, without its line feed.
fn line_at(bytes: &[u8], number: u64) -> &[u8] {
    let mut rest = bytes;
    for _ in 1..number {
        match first_line(rest) {
            Some((_, after)) => rest = after,
            None => return b"",
        }
    }
    match first_line(rest) {
        Some((line, _)) => line,
        None => rest,
    }
}

/// Returns how many line feeds are before an offset.
fn lines_before(bytes: &[u8], place: usize) -> u64 {
    let mut lines = 0u64;
    for (index, byte) in bytes.iter().enumerate() {
        if index < place && *byte == b'\n' {
            lines = lines.saturating_add(1);
        }
    }
    lines
}

//! Splits a text into lines, and reads a line as a tag.

ghost use Rattle.std.specs.Prelude.{◌≡◌, true, false, IfOk, MatchOption};
ghost use Rattle.code_table.specs.Standard.{standard_rows};
ghost use Rattle.dmap_show.specs.TextLines.{before, behind, has};
ghost use Rattle.json_commands.specs.JsonBack.{IsJsonLine, IsNoTag};

use code_table::CodeTable;
use dmap_json::{JsonError, from_json};
use dmap_tags::Tag;
use std::alloc::{AllocError, Global};
use std::str::from_utf8;

/// Returns the first line of `text` without its line feed, and what follows; `None` if there is no line feed.
pub(crate) fn split_line(text: &[u8]) -> Option<(&[u8], &[u8])>
    ensures { MatchOption result (has 10 text.now ≡ false)
        (λ r. (has 10 text.now ≡ true)
        × ((r.0.now ≡ before 10 text.now) × (r.1.now ≡ behind 10 text.now))) }
{
    for place in 0..text.len() {
        if text[place] == b'\n' {
            return Some((&text[..place], &text[place + 1..]));
        }
    }
    None
}

/// Returns the tag that `line` reads as, or `None` if it does not read as one.
pub(crate) fn tag_of(
    alloc: Global,
    table: &CodeTable,
    line: &[u8],
) -> Result<Option<Tag>, AllocError>
    requires { table.now ≡ standard_rows }
    ensures { IfOk result (λ r. MatchOption r (IsNoTag line.now) (λ tag. IsJsonLine line.now tag)) }
{
    let Ok(text) = from_utf8(line) else {
        return Ok(None);
    };
    match from_json(alloc, text, table) {
        Ok(tag) => Ok(Some(tag)),
        Err(JsonError::Memory) => Err(AllocError),
        Err(_) => Ok(None),
    }
}

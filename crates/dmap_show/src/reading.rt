//! Reads shown text back.

ghost use Rattle.std.specs.Prelude.{◌≡◌, ℕ, List, option_map, IfOk, IfErr, IfSome, MatchResult};
ghost use Rattle.dmap_tags.specs.Tree.{Tree};
ghost use Rattle.dmap_show.specs.Readable.{Shows};
ghost use Rattle.dmap_show.specs.TextLines.{Explains};
ghost use Rattle.dmap_show.specs.Parts.{bare_line, head_of, IsHead};
ghost use Rattle.dmap_show.specs.Drafts.{State, taken, Took};
ghost use Rattle.dmap_show.specs.Follows.{Follows};

use crate::draft::Draft;
use crate::pieces::split_once_at;
use crate::row::read_row;
use code_table::CodeTable;
use dmap_tags::{Tag, Tags};
use std::alloc::{AllocError, Global};
use thiserror::Error;

/// Why a text was not read back.
#[derive(Debug, Drop, PartialEq, Eq, Error)]
pub enum ShowError {
    /// The first line, counted from 1, with which no shown text continues. A last line without a line feed is such a
    /// line.
    #[error("line {line} cannot continue a text of tags")]
    Line { line: u64 },
    #[error("out of memory")]
    Memory,
}

impl From<AllocError> for ShowError {
    ghost use Rattle.std.specs.Prelude.{◌≡◌};
    ghost use Rattle.dmap_show.specs.declared.reading.ShowError.TheVariants.{Memory};

    ghost from_gives = { λ _ e. e ≡ Memory };

    fn from(_: AllocError) -> ShowError {
        ShowError::Memory
    }
}

/// Returns the tags whose lines `text` is. They fit the table and have at most 32 levels.
pub fn read_show(alloc: Global, text: &str, table: &CodeTable) -> Result<Tags, ShowError>
    ensures read { IfOk result (λ tags. Shows table.now text.now tags) }
    ensures complete { (ts : List Tree) → Shows table.now text.now ts
        → MatchResult result (λ tags. tags ≡ ts) (λ e. e ≡ ShowError.Memory) }
    ensures refused { IfErr result (λ e. Explains table.now text.now e) }
{
    let draft = read_lines(alloc, text.as_bytes(), table)?;
    Ok(draft.finished()?)
}

/// Returns the draft after all lines.
fn read_lines(alloc: Global, text: &[u8], table: &CodeTable) -> Result<Draft, ShowError>
    ensures { MatchResult result (λ draft. Follows table.now text.now draft.around draft.here)
        (λ e. Explains table.now text.now e) }
{
    let mut draft = Draft::new(alloc);
    let mut left = text;
    let mut line = 0;
    while !left.is_empty() {
        line += 1;
        let Some((bare, rest)) = split_once_at(left, b'\n') else {
            return Err(ShowError::Line { line });
        };
        let Some(longer) = take_line(alloc, table, draft, bare)? else {
            return Err(ShowError::Line { line });
        };
        draft = longer;
        left = rest;
    }
    Ok(draft)
}

/// Returns the draft with a line's tag, unless no such tag may be there.
fn take_line(
    alloc: Global,
    table: &CodeTable,
    draft: Draft,
    bare: &[u8],
) -> Result<Option<Draft>, AllocError>
    ensures took { IfOk result (λ d. IfSome d
        (λ d. Took table.now draft.around draft.here bare.now
        (record { around = d.around; here = d.here }))) }
    ensures only { (level : ℕ) (t : Tree) → IsHead t → bare.now ≡ bare_line level t
        → IfOk result (λ d. option_map (λ d. record { around = d.around; here = d.here }) d ≡ taken table.now level (head_of t) draft.around draft.here) }
{
    match read_row(alloc, bare)? {
        Some(row) => draft.taken(
            alloc,
            table,
            row.level,
            Tag {
                code: row.code,
                value: row.value,
            },
        ),
        None => Ok(None),
    }
}

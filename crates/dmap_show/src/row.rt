//! Reads one line.

ghost use Rattle.std.specs.Prelude.{◌≡◌, ◌++◌, ◌∷◌, ℕ, [], IfOk, IfSome, Some, Decides};
ghost use Rattle.dmap_tags.specs.Codes.{Four};
ghost use Rattle.dmap_tags.specs.Seen.{tree_with};
ghost use Rattle.dmap_tags.specs.Tree.{Tree, tree_code};
ghost use Rattle.dmap_tags.specs.declared.tree.Value.{Value};
ghost use Rattle.dmap_show.specs.Shown.{shown_code, shown_line};
ghost use Rattle.dmap_show.specs.Readable.{IsCode};
ghost use Rattle.dmap_show.specs.Parts.{bare_line, IsHead, head_value, IsHeadValue, kind_named, Spells};

use crate::pieces::{read_code, split_at_byte, split_indent};
use crate::spelled::read_value;
use crate::values::push_line;
use dmap_tags::{Code, Tag, Value};
use std::alloc::{AllocError, Global};

/// A tag without members, and its level.
#[derive(Drop)]
pub(crate) struct Row {
    pub(crate) level: u64,
    pub(crate) code: Code,
    pub(crate) value: Value,
}

/// Returns what a line shows, if it is a shown line. A guess counts only if it is shown as that line.
pub(crate) fn read_row(alloc: Global, bare: &[u8]) -> Result<Option<Row>, AllocError>
    ensures row { IfOk result (λ r. IfSome r
        (λ row. (bare.now ≡ bare_line row.level (tree_with row.code row.value))
        × (IsCode row.code × IsHeadValue row.value))) }
    ensures only { (level : ℕ) (t : Tree) → IsHead t → bare.now ≡ bare_line level t
        → IfOk result (λ r. r ≡ Some
        (record { level = level; code = tree_code t; value = head_value t })) }
{
    let Some(row) = guess(alloc, bare)? else {
        return Ok(None);
    };
    if is_shown(alloc, &row, bare)? {
        Ok(Some(row))
    } else {
        Ok(None)
    }
}

/// Returns whether a row is shown as that line.
fn is_shown(alloc: Global, row: &Row, bare: &[u8]) -> Result<bool, AllocError>
    ensures { IfOk result (λ r. Decides r
        (shown_line row.now.level (tree_with row.now.code row.now.value) ≡ bare.now ++ 10 ∷ [])) }
{
    let mut line = Vec::from_slice(alloc, bare)?;
    line.push(b'\n')?;
    let mut shown = Vec::new(alloc);
    push_line(row.level, row.code, &row.value, &mut shown)?;
    Ok(shown.as_slice() == line.as_slice())
}

/// Returns what a line may show.
fn guess(alloc: Global, bare: &[u8]) -> Result<Option<Row>, AllocError>
    ensures held { IfOk result (λ r. IfSome r (λ row. IsCode row.code × IsHeadValue row.value)) }
    ensures only { (level : ℕ) (t : Tree) → IsHead t → bare.now ≡ bare_line level t
        → IfOk result (λ r. r ≡ Some
        (record { level = level; code = tree_code t; value = head_value t })) }
{
    let (level, line) = split_indent(bare);
    let (code, rest) = split_at_byte(line, b' ');
    let (word, text) = split_at_byte(rest, b' ');
    guess_by(alloc, level, code, word, text)
}

/// Returns what a line may show, by its parts.
fn guess_by(
    alloc: Global,
    level: u64,
    code: &[u8],
    word: &[u8],
    text: &[u8],
) -> Result<Option<Row>, AllocError>
    ensures held { IfOk result (λ r. IfSome r (λ row. IsCode row.code × IsHeadValue row.value)) }
    ensures only { (c : Four) (v : Value) → IsCode c → code.now ≡ shown_code c
        → Spells (kind_named word.now) text.now v
        → IfOk result (λ r. r ≡ Some (record { level = level; code = c; value = v })) }
{
    let Some(code) = read_code(code) else {
        return Ok(None);
    };
    match read_value(alloc, word, text)? {
        Some(value) => Ok(Some(Row { level, code, value })),
        None => Ok(None),
    }
}

//! The reply to `/content-codes`.

ghost use Rattle.std.specs.Prelude.{◌≡◌, ◌≢◌, suc, ◌∷◌, [], ◌++◌, true, false, Option, IfOk, OnOk, MatchResult, MatchOption, Some, None, Ok, Err, option_map, option_copied};
ghost use Rattle.dmap_tags.specs.Tree.{Trees, more, trees_of};
ghost use Rattle.code_table.specs.Rows.{is_coded, codes_differ};
ghost use Rattle.code_table.specs.Reply.{table_reply, entry_of, type_of, first_in, number_in, type_in, name_in, entry_row, row_more, rows_from, table_of};

use crate::code_number::{code_by, number_of};
use crate::row::CodeRow;
use crate::table::CodeTable;
use dmap_tags::{Code, Kind, Tag, Tags, Text, Value};
use std::alloc::{AllocError, AllocFailed, Global};
use thiserror::Error;

/// Errors of `from_reply`. `index` counts the members of the reply from 0.
#[derive(Clone, Copy, Debug, PartialEq, Eq, Error)]
pub enum CodeError {
    #[error("the tag is not a list of content codes")]
    NotReply,
    /// A member lacks its code, its name or its type.
    #[error("member {index} is not an entry")]
    Entry { index: u64 },
    /// A member has the code of an earlier one.
    #[error("member {index} repeats a code")]
    Repeated { index: u64 },
    #[error("out of memory")]
    Memory,
}

impl From<AllocError> for CodeError {
    ghost use Rattle.code_table.specs.declared.reply.CodeError.TheVariants.{Memory};

    ghost from_gives = { λ _ e. e ≡ Memory };

    fn from(_error: AllocError) -> CodeError {
        CodeError::Memory
    }
}

impl<T: Drop> From<AllocFailed<T>> for CodeError {
    ghost use Rattle.code_table.specs.declared.reply.CodeError.TheVariants.{Memory};

    ghost from_gives = { λ _ e. e ≡ Memory };

    fn from(_failed: AllocFailed<T>) -> CodeError {
        CodeError::Memory
    }
}

impl CodeTable {
    /// Returns the body of the reply to `/content-codes`: a status and an entry for each row. `from_reply` reads it as
    /// the same table.
    pub fn reply(&self) -> Result<Tag, AllocError>
        ensures told { IfOk result (λ tag. tag ≡ table_reply self.now) }
        ensures reads_back { IfOk result (λ tag. table_of tag ≡ Ok self.now) }
    {
        let rows = self.rows();
        let alloc = self.allocator();
        let mut members = Tags::new(alloc);
        members.push(Tag {
            code: Code(*b"mstt"),
            value: Value::U32(200),
        })?;
        for row in rows {
            members.push(entry(alloc, row)?)?;
        }
        Ok(Tag {
            code: Code(*b"mccr"),
            value: Value::List(members),
        })
    }

    /// Returns the table of a reply to `/content-codes`. Members that are not an `mdcl` are skipped.
    ///
    /// # Errors
    /// Returns `NotReply` if the tag is not an `mccr` list, `Entry` for an `mdcl` that lacks a part, `Repeated` for one
    /// with the code of an earlier one, and `Memory` if an allocation fails.
    pub fn from_reply(alloc: Global, tag: &Tag) -> Result<CodeTable, CodeError>
        ensures { MatchResult result (λ table. table_of tag.now ≡ Ok table)
            (λ e. e ≢ CodeError.Memory → table_of tag.now ≡ Err e) }
    {
        match &tag.value {
            Value::List(members) => {
                if tag.code == Code(*b"mccr") {
                    told_table(alloc, members.as_slice())
                } else {
                    Err(CodeError::NotReply)
                }
            }
            _ => Err(CodeError::NotReply),
        }
    }
}

/// Returns a row as a member of the reply.
fn entry(alloc: Global, row: &CodeRow) -> Result<Tag, AllocError>
    ensures told { IfOk result (λ tag. tag ≡ entry_of row.now) }
    ensures reads_back { IfOk result (λ tag. entry_row tag ≡ Some row.now) }
{
    let mut parts = Tags::new(alloc);
    parts.push(Tag {
        code: Code(*b"mcnm"),
        value: Value::U32(number_of(row.code)),
    })?;
    parts.push(Tag {
        code: Code(*b"mcna"),
        value: Value::Text(row.name.copy()?),
    })?;
    parts.push(Tag {
        code: Code(*b"mcty"),
        value: Value::U16(row.kind.number().unwrap_or(0)),
    })?;
    Ok(Tag {
        code: Code(*b"mdcl"),
        value: Value::List(parts),
    })
}

/// Returns the table of the rows in the entries among `members`.
fn told_table(alloc: Global, members: &[Tag]) -> Result<CodeTable, CodeError>
    ensures { MatchResult result (λ table. rows_from 0 [] (trees_of members.now) ≡ Ok table)
        (λ e. e ≢ CodeError.Memory → rows_from 0 [] (trees_of members.now) ≡ Err e) }
{
    let mut table = CodeTable::new(alloc);
    for (index, member) in members.iter().enumerate() {
        add_member(&mut table, index as u64, member)?;
    }
    Ok(table)
}

/// Appends the row of `member` if it is an entry.
fn add_member(table: &mut CodeTable, index: u64, member: &Tag) -> Result<(), CodeError>
    ensures { (members : Trees)
        → MatchResult result
        (λ _. rows_from index table.old (more member.now members) ≡ rows_from (suc index) table.new members)
        (λ e. e ≢ CodeError.Memory → rows_from index table.old (more member.now members) ≡ Err e) }
{
    if member.code != Code(*b"mdcl") {
        return Ok(());
    }
    add_row(table, index, entry_row(member)?)
}

/// Appends a row, unless an earlier one has its code.
fn add_row(table: &mut CodeTable, index: u64, row: Option<CodeRow>) -> Result<(), CodeError>
    ensures { MatchResult result (λ _. row_more index table.old row Ok ≡ Ok table.new)
        (λ e. e ≢ CodeError.Memory → row_more index table.old row Ok ≡ Err e) }
{
    let Some(row) = row else {
        return Err(CodeError::Entry { index });
    };
    if table.has(row.code) {
        return Err(CodeError::Repeated { index });
    }
    table.push(row)?;
    Ok(())
}

/// Returns the row of an entry, or `None` if it lacks a part.
fn entry_row(entry: &Tag) -> Result<Option<CodeRow>, AllocError>
    ensures { IfOk result (λ row. row ≡ entry_row entry.now) }
{
    let Value::List(parts) = &entry.value else {
        return Ok(None);
    };
    let parts = parts.as_slice();
    let Some(number) = number_in(first_in(parts, Code(*b"mcnm"))) else {
        return Ok(None);
    };
    let Some(kind) = type_in(first_in(parts, Code(*b"mcty"))) else {
        return Ok(None);
    };
    let Some(name) = name_in(first_in(parts, Code(*b"mcna"))) else {
        return Ok(None);
    };
    Ok(Some(CodeRow {
        code: code_by(number),
        name: name.copy()?,
        kind: Kind::of_number(kind),
    }))
}

/// Returns the first tag with the code.
fn first_in(tags: &[Tag], code: Code) -> Option<&Tag>
    ensures { option_copied result ≡ first_in code (trees_of tags.now) }
{
    for tag in tags {
        if tag.code == code {
            return Some(tag);
        }
    }
    None
}

fn number_in(tag: Option<&Tag>) -> Option<u32>
    ensures { result ≡ number_in (option_copied tag.entry) }
{
    match &tag?.value {
        Value::U32(n) => Some(*n),
        _ => None,
    }
}

fn type_in(tag: Option<&Tag>) -> Option<u16>
    ensures { result ≡ type_in (option_copied tag.entry) }
{
    match &tag?.value {
        Value::U16(n) => Some(*n),
        _ => None,
    }
}

fn name_in(tag: Option<&Tag>) -> Option<&Text>
    ensures { option_copied result ≡ name_in (option_copied tag.entry) }
{
    match &tag?.value {
        Value::Text(name) => Some(name),
        _ => None,
    }
}

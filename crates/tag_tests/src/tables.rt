//! Tags and tables of content codes that the other modules use.

use code_table::{CodeError, CodeTable};
use dmap_tags::{Code, Tag, Tags, Text, Value};
use std::alloc::{AllocError, Global};

pub(crate) fn tag(code: Code, value: Value) -> Tag {
    Tag { code, value }
}

pub(crate) fn code_of(bytes: &[u8; 4]) -> Code {
    let [a, b, c, d] = *bytes;
    Code([a, b, c, d])
}

/// Returns the standard table. It has no clauses, so that a test's proof carries no 73 rows.
pub(crate) fn standard(alloc: Global) -> Result<CodeTable, AllocError> {
    CodeTable::standard(alloc)
}

/// Returns the entry of a response to `/content-codes` for a code, with a name and the number of a kind.
pub(crate) fn entry(
    alloc: Global,
    code: &[u8; 4],
    name: &str,
    number: u16,
) -> Result<Tag, AllocError> {
    let mut parts = Tags::new(alloc);
    parts.push(tag(Code(*b"mcnm"), Value::U32(u32::from_be_bytes(*code))))?;
    parts.push(tag(Code(*b"mcna"), Value::Text(Text::of(alloc, name)?)))?;
    parts.push(tag(Code(*b"mcty"), Value::U16(number)))?;
    Ok(tag(Code(*b"mdcl"), Value::List(parts)))
}

/// A code of each kind, with the number of the kind.
const OF_EACH_KIND: [(&[u8; 4], u16); 13] = [
    (b"zzzz", 3),
    (b"zzz1", 1),
    (b"zzz2", 2),
    (b"zzz3", 3),
    (b"zzz4", 4),
    (b"zzz5", 5),
    (b"zzz6", 6),
    (b"zzz7", 7),
    (b"zzz8", 8),
    (b"zzz9", 9),
    (b"zzza", 10),
    (b"zzzb", 11),
    (b"zzzc", 12),
];

fn table_of(alloc: Global, codes: &[(&[u8; 4], u16)]) -> Result<CodeTable, CodeError> {
    let mut members = Tags::new(alloc);
    for (code, number) in codes {
        members.push(entry(alloc, *code, "test.value", *number)?)?;
    }
    CodeTable::from_reply(alloc, &tag(Code(*b"mccr"), Value::List(members)))
}

/// Returns the table of a response that has a code of each kind.
pub(crate) fn learned(alloc: Global) -> Result<CodeTable, CodeError> {
    table_of(alloc, &OF_EACH_KIND)
}

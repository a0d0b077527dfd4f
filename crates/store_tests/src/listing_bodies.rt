//! Bodies of listings of items, as tags.

use dmap_tags::{Code, Tag, Tags, Text, Value};
use std::alloc::{AllocError, Global};

/// A listing: whether it is a delta, its revision, the ids and names of its rows, the id that it deletes if it is a
/// delta, and what comes of it.
pub(crate) type Told = (bool, u32, [(u32, &'static str); 2], u32, &'static str);

fn push(tags: &mut Tags, code: Code, value: Value) -> Result<(), AllocError> {
    tags.push(Tag { code, value })
}

/// Appends the members with which a listing begins.
fn push_start(tags: &mut Tags, kind: u8, revision: u32, listed: u32) -> Result<(), AllocError> {
    push(tags, Code(*b"mstt"), Value::U32(200))?;
    push(tags, Code(*b"muty"), Value::U8(kind))?;
    push(tags, Code(*b"musr"), Value::U32(revision))?;
    push(tags, Code(*b"mtco"), Value::U32(listed))?;
    push(tags, Code(*b"mrco"), Value::U32(listed))
}

fn list(code: Code, tags: Tags) -> Tag {
    Tag {
        code,
        value: Value::List(tags),
    }
}

fn text(alloc: Global, text: &str) -> Result<Value, AllocError> {
    Ok(Value::Text(Text::of(alloc, text)?))
}

/// Returns the row of an item with a name.
pub(crate) fn row(alloc: Global, id: u32, name: &str) -> Result<Tag, AllocError> {
    let mut row = Tags::new(alloc);
    push(&mut row, Code(*b"miid"), Value::U32(id))?;
    push(&mut row, Code(*b"minm"), text(alloc, name)?)?;
    Ok(list(Code(*b"mlit"), row))
}

fn listed(alloc: Global, rows: &[(u32, &'static str)]) -> Result<Tag, AllocError> {
    let mut members = Tags::new(alloc);
    for (id, name) in rows {
        members.push(row(alloc, *id, name)?)?;
    }
    Ok(list(Code(*b"mlcl"), members))
}

fn deleted(alloc: Global, id: u32) -> Result<Tag, AllocError> {
    let mut keys = Tags::new(alloc);
    push(&mut keys, Code(*b"miid"), Value::U32(id))?;
    Ok(list(Code(*b"mudl"), keys))
}

pub(crate) fn body(alloc: Global, told: &Told) -> Result<Tag, AllocError> {
    let mut members = Tags::new(alloc);
    push_start(&mut members, u8::from(told.0), told.1, 2)?;
    members.push(listed(alloc, &told.2)?)?;
    if told.0 {
        members.push(deleted(alloc, told.3)?)?;
    }
    Ok(list(Code(*b"adbs"), members))
}

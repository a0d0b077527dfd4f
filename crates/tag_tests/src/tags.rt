//! `dmap_tags`: encodings that are known byte for byte, and one call of each function that allocates.

use crate::tables::tag;
use dmap_tags::{Bytes, Code, Kind, Tag, Tags, Text, Value, encode_into, encoded_len, leaf_from};
use std::alloc::{AllocError, Global};
use std::test::Fail;

/// The bytes of the row of an item with id 7 and name `A`.
const ROW: &[u8] = b"mlit\0\0\0\x15miid\0\0\0\x04\0\0\0\x07minm\0\0\0\x01A";

fn row(alloc: Global) -> Result<Tag, AllocError> {
    let mut row = Tags::new(alloc);
    row.push(tag(Code(*b"miid"), Value::U32(7)))?;
    row.push(tag(Code(*b"minm"), Value::Text(Text::of(alloc, "A")?)))?;
    Ok(tag(Code(*b"mlit"), Value::List(row)))
}

#[test]
fn a_row_is_encoded_after_what_is_there(rt: HostRuntime) -> Result<(), Fail> {
    let row = row(rt.alloc())?.copy()?;
    let mut out = Vec::from_slice(rt.alloc(), b"head")?;
    encode_into(&row, &mut out)?;
    assert!(rt; out.as_slice().starts_with(b"head"));
    assert!(rt; out.as_slice().ends_with(ROW));
    assert_eq!(rt; out.len(), 33);
    assert_eq!(rt; encoded_len(&row), Some(29));
    Ok(())
}

fn is_opaque(alloc: Global, payload: &[u8]) -> Result<bool, AllocError> {
    let value = leaf_from(Kind::U32, Vec::from_slice(alloc, payload)?);
    Ok(matches!(value, Value::Opaque(_)))
}

/// Returns whether bytes are not a text, and are returned then.
fn stay_bytes(alloc: Global, bytes: &[u8]) -> Result<bool, AllocError> {
    match Text::from_utf8(Vec::from_slice(alloc, bytes)?) {
        Ok(_) => Ok(false),
        Err(kept) => Ok(kept.copy()?.as_slice() == bytes),
    }
}

fn are_copied(alloc: Global, text: &str) -> Result<bool, AllocError> {
    let bytes = Bytes::of(alloc, text.as_bytes())?;
    let copied = Text::of(alloc, text)?.copy()?;
    Ok(bytes.as_slice() == text.as_bytes() && copied.as_str() == text)
}

#[test]
fn payloads_that_do_not_fit_stay_bytes(rt: HostRuntime) -> Result<(), Fail> {
    assert!(rt; is_opaque(rt.alloc(), b"\0\0\x01")?);
    assert!(rt; stay_bytes(rt.alloc(), b"\xff")?);
    assert!(rt; are_copied(rt.alloc(), "ab")?);
    assert_eq!(rt; Kind::of_number(12).number(), Some(12));
    assert_eq!(rt; Kind::of_number(13), Kind::Opaque);
    Ok(())
}

//! The encoding of tags in bytes.

ghost use Rattle.std.specs.Prelude.{◌≡◌, ◌≤◌, ◌+◌, ◌-◌, ◌++◌, ◌↔◌, ◌&&◌, true, false, nat_le, length, take, drop, OnOk, OnErr, vec_len, Some, None, Err, if◌then◌else◌};
ghost use Rattle.std.specs.Int.{w32, to_be_bytes};
ghost use Rattle.dmap_tags.specs.Tree.{trees_of};
ghost use Rattle.dmap_tags.specs.Begins.{Begins};
ghost use Rattle.dmap_tags.specs.Spelling.{payload, spellings, spelling, longest, is_spellable, are_spellable, spelling_length};

use crate::tree::{Tag, Value};
use std::alloc::AllocError;
use thiserror::Error;

/// Errors of `encode_into`.
#[derive(Debug, Drop, Error)]
pub enum TagError {
    /// A payload is longer than its four bytes of length can state.
    #[error("a payload is longer than 4,294,967,295 bytes")]
    TooLong,
    #[error("out of memory")]
    Memory,
}

impl From<AllocError> for TagError {
    ghost use Rattle.std.specs.Prelude.{◌≡◌};
    ghost use Rattle.dmap_tags.specs.declared.spelling.TagError.TheVariants.{Memory};

    ghost from_gives = { λ _ e. e ≡ Memory };

    fn from(_: AllocError) -> TagError {
        TagError::Memory
    }
}

/// Returns the length of a tag's encoding in bytes, or `None` if a payload in the tag is too long.
pub fn encoded_len(tag: &Tag) -> Option<u64>
    ensures { result ≡ spelling_length tag.now }
{
    Some(u64::from(payload_len(tag)?) + 8)
}

/// Appends the encoding of `tag` to `out`, whose capacity grows first. Returns `TooLong` if the length of some payload
/// in it does not fit 32 bits. If it fails, `out` is unchanged.
pub fn encode_into(tag: &Tag, out: &mut Vec<u8>) -> Result<(), TagError>
    ensures spelled { OnOk result (out.new.items ≡ out.old.items ++ spelling tag.now) }
    ensures too_long { (result ≡ Err TagError.TooLong) ↔ (is_spellable tag.now ≡ false) }
    ensures unchanged { OnErr result (out.new.items ≡ out.old.items) }
{
    let Some(len) = payload_len(tag) else {
        return Err(TagError::TooLong);
    };
    out.reserve(len as usize + 8)?;
    let before = out.len();
    if let Err(error) = push_tag(tag, out) {
        out.truncate(before);
        return Err(error.into());
    }
    Ok(())
}

/// Returns the length of a tag's payload, or `None` if a payload in the tag is too long.
#[cycle(payload_len)]
fn payload_len(tag: &Tag) -> Option<u32>
    ensures { result ≡ (if is_spellable tag.now then Some (length (payload tag.now)) else None) }
{
    match &tag.value {
        Value::U8(_) | Value::I8(_) => Some(1),
        Value::U16(_) | Value::I16(_) => Some(2),
        Value::U32(_) | Value::I32(_) | Value::Date(_) | Value::Version(_) => Some(4),
        Value::U64(_) | Value::I64(_) => Some(8),
        Value::Text(text) => telling(text.as_str().len()),
        Value::Opaque(bytes) => telling(bytes.as_slice().len()),
        Value::List(tags) => members_len(tags.as_slice()),
    }
}

/// Returns the sum of the lengths of the members' encodings, or `None` if it is too large.
#[cycle(payload_len)]
#[tactic(auto, using(crate::proofs::Sizes::member_falls, crate::proofs::Lengths::none_left))]
fn members_len(tags: &[Tag]) -> Option<u32>
    ensures { result ≡ (if are_spellable (trees_of tags.now)
        && nat_le (length (spellings (trees_of tags.now))) longest then Some
        (length (spellings (trees_of tags.now))) else None) }
{
    let mut total: u32 = 0;
    for tag in tags {
        total = total.checked_add(payload_len(tag)?.checked_add(8)?)?;
    }
    Some(total)
}

/// Returns `len` if four bytes can state it.
fn telling(len: usize) -> Option<u32>
    ensures { result ≡ (if nat_le len longest then Some len else None) }
{
    if len <= u32::MAX as usize {
        Some(len as u32)
    } else {
        None
    }
}

/// Appends a tag's encoding.
#[cycle(push_tag)]
fn push_tag(tag: &Tag, out: &mut Vec<u8>) -> Result<(), AllocError>
    requires { is_spellable tag.now ≡ true }
    ensures spelled { OnOk result (out.new.items ≡ out.old.items ++ spelling tag.now) }
    ensures front { OnErr result (Begins out.old.items out.new.items) }
{
    let at = out.len();
    out.extend_from_slice(&tag.code.0)?;
    out.extend_from_slice(&[0; 4])?;
    push_payload(tag, out)?;
    put_length(out, at + 4);
    Ok(())
}

/// Writes into the four bytes at `at` how many bytes follow them.
fn put_length(out: &mut Vec<u8>, at: usize)
    requires { (at + 4 ≤ vec_len out.old) × (vec_len out.old ≤ at + 4 + longest) }
    ensures { out.new.items ≡ take at out.old.items ++ to_be_bytes w32 (vec_len out.old - (at + 4))
        ++ drop (at + 4) out.old.items }
{
    let len = (out.len() - at - 4) as u32;
    out[at..at + 4].copy_from_slice(&len.to_be_bytes());
}

/// Appends a tag's payload.
#[cycle(push_tag)]
fn push_payload(tag: &Tag, out: &mut Vec<u8>) -> Result<(), AllocError>
    requires { is_spellable tag.now ≡ true }
    ensures spelled { OnOk result (out.new.items ≡ out.old.items ++ payload tag.now) }
    ensures front { OnErr result (Begins out.old.items out.new.items) }
{
    match &tag.value {
        Value::U8(n) => out.extend_from_slice(&n.to_be_bytes()),
        Value::I8(n) => out.extend_from_slice(&n.to_be_bytes()),
        Value::U16(n) => out.extend_from_slice(&n.to_be_bytes()),
        Value::I16(n) => out.extend_from_slice(&n.to_be_bytes()),
        Value::U32(n) => out.extend_from_slice(&n.to_be_bytes()),
        Value::I32(n) => out.extend_from_slice(&n.to_be_bytes()),
        Value::U64(n) => out.extend_from_slice(&n.to_be_bytes()),
        Value::I64(n) => out.extend_from_slice(&n.to_be_bytes()),
        Value::Text(text) => out.extend_from_slice(text.as_str().as_bytes()),
        Value::Date(n) => out.extend_from_slice(&n.to_be_bytes()),
        Value::Version(n) => out.extend_from_slice(&n.to_be_bytes()),
        Value::List(tags) => push_tags(tags.as_slice(), out),
        Value::Opaque(bytes) => out.extend_from_slice(bytes.as_slice()),
    }
}

/// Appends the encodings of a list's members.
#[cycle(push_tag)]
#[tactic(auto, using(crate::proofs::Sizes::member_falls, crate::proofs::Lengths::spellable_at, crate::proofs::Fronts::begins_more))]
fn push_tags(tags: &[Tag], out: &mut Vec<u8>) -> Result<(), AllocError>
    requires { are_spellable (trees_of tags.now) ≡ true }
    ensures spelled { OnOk result (out.new.items ≡ out.old.items ++ spellings (trees_of tags.now)) }
    ensures front { OnErr result (Begins out.old.items out.new.items) }
{
    for tag in tags {
        push_tag(tag, out)?;
    }
    Ok(())
}

//! Kinds and values, read from the members of a tag's object.

ghost use Rattle.std.specs.Prelude.{◌≡◌, ◌<◌, ◌^◌, ℕ, ℤ, negsuc, true, IfOk, MatchOption};
ghost use Rattle.std.specs.Int.{w8, w16, w32, w64};
ghost use Rattle.std.specs.Int.RustNames.{FitsSigned};
ghost use Rattle.std.specs.Str.{is_utf8};
ghost use Rattle.serde_json.specs.Data.{number, unsigned, negative as below_zero};
ghost use Rattle.serde_json.specs.Find.{of_integer};
ghost use Rattle.serde_json.specs.View.{view};
ghost use Rattle.dmap_tags.specs.declared.tree.Value.{Value as TagValue};
ghost use Rattle.dmap_json.specs.Parts.{kind_named, IsValueOf};

use crate::hex::bytes_from;
use dmap_tags::{Bytes, Kind, Text, Value};
use serde_json::Value as Json;
use std::alloc::{AllocError, Global};

/// Returns the kind with the name `word`.
pub(crate) fn kind_from(word: &str) -> Option<Kind>
    ensures { result ≡ kind_named word.now }
{
    let word = word.as_bytes();
    if word == b"u8".as_slice() {
        Some(Kind::U8)
    } else if word == b"i8".as_slice() {
        Some(Kind::I8)
    } else if word == b"u16".as_slice() {
        Some(Kind::U16)
    } else if word == b"i16".as_slice() {
        Some(Kind::I16)
    } else if word == b"u32".as_slice() {
        Some(Kind::U32)
    } else if word == b"i32".as_slice() {
        Some(Kind::I32)
    } else if word == b"u64".as_slice() {
        Some(Kind::U64)
    } else if word == b"i64".as_slice() {
        Some(Kind::I64)
    } else if word == b"text".as_slice() {
        Some(Kind::Text)
    } else if word == b"date".as_slice() {
        Some(Kind::Date)
    } else if word == b"version".as_slice() {
        Some(Kind::Version)
    } else if word == b"list".as_slice() {
        Some(Kind::List)
    } else if word == b"opaque".as_slice() {
        Some(Kind::Opaque)
    } else {
        None
    }
}

/// Returns the value that `json` is under `kind`, or `None` if it is not one. No value is a list's.
pub(crate) fn value_from(
    alloc: Global,
    kind: Kind,
    json: &Json,
) -> Result<Option<Value>, AllocError>
    ensures { IfOk result (λ r. MatchOption r ((v : TagValue) → IsValueOf kind (view json.now) v
        → ⊥) (λ v. IsValueOf kind (view json.now) v)) }
{
    match kind {
        Kind::U8 => Ok(u8_from(json)),
        Kind::I8 => Ok(i8_from(json)),
        Kind::U16 => Ok(u16_from(json)),
        Kind::I16 => Ok(i16_from(json)),
        Kind::U32 => Ok(u32_value(json)),
        Kind::I32 => Ok(i32_from(json)),
        Kind::U64 => Ok(u64_from(json)),
        Kind::I64 => Ok(i64_from(json)),
        Kind::Text => text_from(alloc, json),
        Kind::Date => Ok(date_from(json)),
        Kind::Version => Ok(version_from(json)),
        Kind::Opaque => opaque_from(alloc, json),
        Kind::List => Ok(None),
    }
}

/// Returns a whole number from 0 to 2^64 - 1.
fn unsigned(json: &Json) -> Option<u64>
    ensures { MatchOption result ((n : ℕ) → view json.now ≡ number (unsigned n) → ⊥)
        (λ n. view json.now ≡ number (unsigned n)) }
{
    json.as_u64()
}

/// Returns a whole number that fits 64 bits with a sign.
fn signed(json: &Json) -> Option<i64>
    ensures { MatchOption result ((z : ℤ) → FitsSigned w64 z → view json.now ≡ number (of_integer z)
        → ⊥) (λ z. view json.now ≡ number (of_integer z)) }
{
    match unsigned(json) {
        Some(n) if n < 9_223_372_036_854_775_808 => Some(n as i64),
        Some(_) => None,
        None => negative(json),
    }
}

/// Returns a whole number below 0 that fits 64 bits with a sign.
fn negative(json: &Json) -> Option<i64>
    ensures { MatchOption result ((n : ℕ) → view json.now ≡ number (below_zero (negsuc n)) → ⊥)
        (λ z. view json.now ≡ number (of_integer z)) }
{
    match json.as_i64() {
        Some(n) if n < 0 => Some(n),
        _ => None,
    }
}

/// Returns a whole number of 32 bits.
fn u32_from(json: &Json) -> Option<u32>
    ensures { MatchOption result ((n : ℕ) → n < 2 ^ 32 → view json.now ≡ number (unsigned n) → ⊥)
        (λ n. (n < 2 ^ 32) × (view json.now ≡ number (unsigned n))) }
{
    match unsigned(json) {
        Some(n) if n < 4_294_967_296 => Some(n as u32),
        _ => None,
    }
}

fn u8_from(json: &Json) -> Option<Value>
    ensures { MatchOption result ((v : TagValue) → IsValueOf Kind.U8 (view json.now) v → ⊥)
        (λ v. IsValueOf Kind.U8 (view json.now) v) }
{
    match unsigned(json) {
        Some(n) if n < 256 => Some(Value::U8(n as u8)),
        _ => None,
    }
}

fn u16_from(json: &Json) -> Option<Value>
    ensures { MatchOption result ((v : TagValue) → IsValueOf Kind.U16 (view json.now) v → ⊥)
        (λ v. IsValueOf Kind.U16 (view json.now) v) }
{
    match unsigned(json) {
        Some(n) if n < 65_536 => Some(Value::U16(n as u16)),
        _ => None,
    }
}

fn u32_value(json: &Json) -> Option<Value>
    ensures { MatchOption result ((v : TagValue) → IsValueOf Kind.U32 (view json.now) v → ⊥)
        (λ v. IsValueOf Kind.U32 (view json.now) v) }
{
    Some(Value::U32(u32_from(json)?))
}

fn u64_from(json: &Json) -> Option<Value>
    ensures { MatchOption result ((v : TagValue) → IsValueOf Kind.U64 (view json.now) v → ⊥)
        (λ v. IsValueOf Kind.U64 (view json.now) v) }
{
    Some(Value::U64(unsigned(json)?))
}

fn date_from(json: &Json) -> Option<Value>
    ensures { MatchOption result ((v : TagValue) → IsValueOf Kind.Date (view json.now) v → ⊥)
        (λ v. IsValueOf Kind.Date (view json.now) v) }
{
    Some(Value::Date(u32_from(json)?))
}

fn version_from(json: &Json) -> Option<Value>
    ensures { MatchOption result ((v : TagValue) → IsValueOf Kind.Version (view json.now) v → ⊥)
        (λ v. IsValueOf Kind.Version (view json.now) v) }
{
    Some(Value::Version(u32_from(json)?))
}

fn i8_from(json: &Json) -> Option<Value>
    ensures { MatchOption result ((v : TagValue) → IsValueOf Kind.I8 (view json.now) v → ⊥)
        (λ v. IsValueOf Kind.I8 (view json.now) v) }
{
    match signed(json) {
        Some(n) if -128 <= n && n < 128 => Some(Value::I8(n as i8)),
        _ => None,
    }
}

fn i16_from(json: &Json) -> Option<Value>
    ensures { MatchOption result ((v : TagValue) → IsValueOf Kind.I16 (view json.now) v → ⊥)
        (λ v. IsValueOf Kind.I16 (view json.now) v) }
{
    match signed(json) {
        Some(n) if -32_768 <= n && n < 32_768 => Some(Value::I16(n as i16)),
        _ => None,
    }
}

fn i32_from(json: &Json) -> Option<Value>
    ensures { MatchOption result ((v : TagValue) → IsValueOf Kind.I32 (view json.now) v → ⊥)
        (λ v. IsValueOf Kind.I32 (view json.now) v) }
{
    match signed(json) {
        Some(n) if -2_147_483_648 <= n && n < 2_147_483_648 => Some(Value::I32(n as i32)),
        _ => None,
    }
}

fn i64_from(json: &Json) -> Option<Value>
    ensures { MatchOption result ((v : TagValue) → IsValueOf Kind.I64 (view json.now) v → ⊥)
        (λ v. IsValueOf Kind.I64 (view json.now) v) }
{
    Some(Value::I64(signed(json)?))
}

fn text_from(alloc: Global, json: &Json) -> Result<Option<Value>, AllocError>
    ensures { IfOk result (λ r. MatchOption r ((v : TagValue)
        → IsValueOf Kind.Text (view json.now) v → ⊥) (λ v. IsValueOf Kind.Text (view json.now) v)) }
{
    match json.as_str() {
        Some(text) => Ok(Some(Value::Text(own_text(alloc, text)?))),
        None => Ok(None),
    }
}

fn own_text(alloc: Global, text: &str) -> Result<Text, AllocError>
    ensures value { IfOk result (λ t. t ≡ text.now) }
    ensures held { is_utf8 text.now ≡ true }
{
    Text::of(alloc, text)
}

fn opaque_from(alloc: Global, json: &Json) -> Result<Option<Value>, AllocError>
    ensures { IfOk result (λ r. MatchOption r ((v : TagValue)
        → IsValueOf Kind.Opaque (view json.now) v → ⊥)
        (λ v. IsValueOf Kind.Opaque (view json.now) v)) }
{
    let Some(digits) = json.as_str() else {
        return Ok(None);
    };
    match bytes_from(alloc, digits.as_bytes())? {
        Some(bytes) => Ok(Some(Value::Opaque(Bytes::from(bytes)))),
        None => Ok(None),
    }
}

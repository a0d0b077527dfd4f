//! Values of payloads under a kind.

ghost use Rattle.std.specs.Prelude.{◌≡◌, ◌≢◌, IfOk, option_map, length, ◌==◌, Some, None, if◌then◌else◌};
ghost use Rattle.std.specs.Int.{w8, w16, w32, w64, from_be_bytes};
ghost use Rattle.std.specs.Str.{is_utf8};
ghost use Rattle.dmap_tags.specs.Typed.{number_at, text_at, leaf_at, value_of};

use crate::kinds::Kind;
use crate::payload::{Bytes, Text};
use crate::tree::Value;
use std::alloc::{AllocError, Global};
use std::str::from_utf8;

/// Returns the value of a payload under `kind`, or opaque bytes if the payload doesn't fit the kind.
#[inline(always)]
pub fn leaf(alloc: Global, kind: Kind, payload: &[u8]) -> Result<Value, AllocError>
    requires { kind ≢ Kind.List }
    ensures { IfOk result (λ v. v ≡ value_of (leaf_at kind payload.now)) }
{
    match number(kind, payload) {
        Some(value) => Ok(value),
        None => Ok(text(kind, Vec::from_slice(alloc, payload)?)),
    }
}

/// Returns the same value as `leaf`. Does not allocate: a text and opaque bytes own the vector.
pub fn leaf_from(kind: Kind, payload: Vec<u8>) -> Value
    requires { kind ≢ Kind.List }
    ensures { result ≡ value_of (leaf_at kind payload.items) }
{
    match number(kind, payload.as_slice()) {
        Some(value) => value,
        None => text(kind, payload),
    }
}

/// Returns whether bytes are UTF-8.
pub fn is_text(bytes: &[u8]) -> bool
    ensures { result ≡ is_utf8 bytes.now }
{
    match from_utf8(bytes) {
        Ok(_) => true,
        Err(_) => false,
    }
}

#[inline(always)]
fn number(kind: Kind, payload: &[u8]) -> Option<Value>
    ensures { result ≡ option_map value_of (number_at kind payload.now) }
{
    match kind {
        Kind::U8 => Some(Value::U8(of_one(payload)?)),
        Kind::I8 => Some(Value::I8(of_one(payload)?.cast_signed())),
        Kind::U16 => Some(Value::U16(of_two(payload)?)),
        Kind::I16 => Some(Value::I16(of_two(payload)?.cast_signed())),
        Kind::U32 => Some(Value::U32(of_four(payload)?)),
        Kind::I32 => Some(Value::I32(of_four(payload)?.cast_signed())),
        Kind::U64 => Some(Value::U64(of_eight(payload)?)),
        Kind::I64 => Some(Value::I64(of_eight(payload)?.cast_signed())),
        Kind::Date => Some(Value::Date(of_four(payload)?)),
        Kind::Version => Some(Value::Version(of_four(payload)?)),
        Kind::Text | Kind::List | Kind::Opaque => None,
    }
}

fn of_one(payload: &[u8]) -> Option<u8>
    ensures { result ≡ (if length payload.now == 1 then Some (from_be_bytes w8 payload.now)
        else None) }
{
    match payload {
        [a] => Some(*a),
        _ => None,
    }
}

fn of_two(payload: &[u8]) -> Option<u16>
    ensures { result ≡ (if length payload.now == 2 then Some (from_be_bytes w16 payload.now)
        else None) }
{
    match payload {
        [a, b] => Some(u16::from_be_bytes([*a, *b])),
        _ => None,
    }
}

fn of_four(payload: &[u8]) -> Option<u32>
    ensures { result ≡ (if length payload.now == 4 then Some (from_be_bytes w32 payload.now)
        else None) }
{
    match payload {
        [a, b, c, d] => Some(u32::from_be_bytes([*a, *b, *c, *d])),
        _ => None,
    }
}

fn of_eight(payload: &[u8]) -> Option<u64>
    ensures { result ≡ (if length payload.now == 8 then Some (from_be_bytes w64 payload.now)
        else None) }
{
    match payload {
        [a, b, c, d, e, f, g, h] => Some(u64::from_be_bytes([*a, *b, *c, *d, *e, *f, *g, *h])),
        _ => None,
    }
}

fn text(kind: Kind, payload: Vec<u8>) -> Value
    ensures { result ≡ value_of (text_at kind payload.items) }
{
    if kind != Kind::Text {
        return Value::Opaque(Bytes::from(payload));
    }
    match Text::from_utf8(payload) {
        Ok(text) => Value::Text(text),
        Err(bytes) => Value::Opaque(bytes),
    }
}

//! Reads values from the texts that show them.

ghost use Rattle.std.specs.Prelude.{◌≡◌, ◌≢◌, ◌<◌, ◌^◌, ◌/◌, ◌%◌, ◌++◌, ◌∷◌, ℕ, ℤ, List, [], length, flat_map, decimal, IfOk, IfSome, Some, None, true};
ghost use Rattle.std.specs.Fmt.{signed_decimal};
ghost use Rattle.std.specs.Int.{w8, w16, w32};
ghost use Rattle.std.specs.Int.RustNames.{FitsSigned};
ghost use Rattle.dmap_tags.specs.declared.tree.Value.{Value};
ghost use Rattle.dmap_show.specs.Shown.{dotted};
ghost use Rattle.dmap_show.specs.Readable.{AreBytes};
ghost use Rattle.dmap_show.specs.Parts.{kind_named, is_number, piece, Spells, IsHeadValue};

use crate::pieces::{first_hex, first_quoted, kind_named, number, signed_number, split_at_byte};
use dmap_tags::{Bytes, Kind, Tags, Text, Value};
use std::alloc::{AllocError, Global};

/// How bytes are shown: in quotes with escapes, or in hex.
#[derive(Clone, Copy)]
pub(crate) enum Form {
    Quoted,
    Hex,
}

/// Returns the value that a word and a text show.
pub(crate) fn read_value(
    alloc: Global,
    word: &[u8],
    text: &[u8],
) -> Result<Option<Value>, AllocError>
    ensures only { (v : Value) → Spells (kind_named word.now) text.now v
        → IfOk result (λ r. r ≡ Some v) }
    ensures held { IfOk result (λ r. IfSome r IsHeadValue) }
{
    let kind = kind_named(word);
    match kind {
        Kind::Text => read_text(alloc, text),
        Kind::Opaque => read_opaque(alloc, text),
        Kind::List => Ok(Some(Value::List(Tags::new(alloc)))),
        Kind::U8 | Kind::I8 | Kind::U16 | Kind::I16 => Ok(read_number(kind, text)),
        Kind::U32 | Kind::I32 | Kind::U64 | Kind::I64 => Ok(read_number(kind, text)),
        Kind::Date | Kind::Version => Ok(read_number(kind, text)),
    }
}

/// Returns the value of a number, a date or a version.
fn read_number(kind: Kind, text: &[u8]) -> Option<Value>
    ensures only { (v : Value) → is_number kind ≡ true → Spells kind text.now v → result ≡ Some v }
    ensures held { IfSome result IsHeadValue }
{
    match kind {
        Kind::U8 => Some(Value::U8(u8_of(text)?)),
        Kind::I8 => Some(Value::I8(i8_of(text)?)),
        Kind::U16 => Some(Value::U16(u16_of(text)?)),
        Kind::I16 => Some(Value::I16(i16_of(text)?)),
        Kind::U32 => Some(Value::U32(u32_of(text)?)),
        Kind::I32 => Some(Value::I32(i32_of(text)?)),
        Kind::U64 => Some(Value::U64(number(text)?)),
        Kind::I64 => Some(Value::I64(signed_number(text)?)),
        Kind::Date => Some(Value::Date(u32_of(text)?)),
        Kind::Version => Some(Value::Version(version_of(text)?)),
        Kind::Text | Kind::List | Kind::Opaque => None,
    }
}

fn u8_of(text: &[u8]) -> Option<u8>
    ensures { (n : ℕ) → n < 2 ^ 8 → text.now ≡ decimal n → result ≡ Some n }
{
    match number(text) {
        Some(n) if n < 256 => Some(n as u8),
        _ => None,
    }
}

fn u16_of(text: &[u8]) -> Option<u16>
    ensures { (n : ℕ) → n < 2 ^ 16 → text.now ≡ decimal n → result ≡ Some n }
{
    match number(text) {
        Some(n) if n < 65_536 => Some(n as u16),
        _ => None,
    }
}

fn u32_of(text: &[u8]) -> Option<u32>
    ensures { (n : ℕ) → n < 2 ^ 32 → text.now ≡ decimal n → result ≡ Some n }
{
    match number(text) {
        Some(n) if n < 4_294_967_296 => Some(n as u32),
        _ => None,
    }
}

fn i8_of(text: &[u8]) -> Option<i8>
    ensures { (z : ℤ) → FitsSigned w8 z → text.now ≡ signed_decimal z → result ≡ Some z }
{
    match signed_number(text) {
        Some(n) if -128 <= n && n < 128 => Some(n as i8),
        _ => None,
    }
}

fn i16_of(text: &[u8]) -> Option<i16>
    ensures { (z : ℤ) → FitsSigned w16 z → text.now ≡ signed_decimal z → result ≡ Some z }
{
    match signed_number(text) {
        Some(n) if -32_768 <= n && n < 32_768 => Some(n as i16),
        _ => None,
    }
}

fn i32_of(text: &[u8]) -> Option<i32>
    ensures { (z : ℤ) → FitsSigned w32 z → text.now ≡ signed_decimal z → result ≡ Some z }
{
    match signed_number(text) {
        Some(n) if -2_147_483_648 <= n && n < 2_147_483_648 => Some(n as i32),
        _ => None,
    }
}

/// Returns the version whose three parts are separated by points.
fn version_of(text: &[u8]) -> Option<u32>
    ensures { (n : ℕ) → n < 2 ^ 32 → text.now ≡ dotted n → result ≡ Some n }
{
    let (major, rest) = split_at_byte(text, b'.');
    let (minor, patch) = split_at_byte(rest, b'.');
    version_by(major, minor, patch)
}

fn version_by(major: &[u8], minor: &[u8], patch: &[u8]) -> Option<u32>
    ensures { (n : ℕ) → n < 2 ^ 32 → major.now ≡ decimal (n / 65536)
        → minor.now ≡ decimal (n / 256 % 256) → patch.now ≡ decimal (n % 256) → result ≡ Some n }
{
    let major = u32::from(u16_of(major)?);
    let minor = u32::from(u8_of(minor)?);
    let patch = u32::from(u8_of(patch)?);
    Some(major * 65_536 + minor * 256 + patch)
}

/// Returns the first byte that is shown, and what follows it.
fn first(form: Form, bytes: &[u8]) -> Option<(u8, &[u8])>
    ensures shown { (b : ℕ) (more : List ℕ) → b < 256 → bytes.now ≡ piece form b ++ more
        → IfSome result (λ r. (r.0 ≡ b) × (r.1.now ≡ more)) }
    ensures there { (b : ℕ) (more : List ℕ) → bytes.now ≡ piece form b ++ more → result ≢ None }
    ensures shorter { IfSome result (λ r. length r.1.now < length bytes.now) }
{
    match form {
        Form::Quoted => first_quoted(bytes),
        Form::Hex => first_hex(bytes),
    }
}

/// Returns the bytes that are shown so.
fn unshown(alloc: Global, form: Form, shown: &[u8]) -> Result<Vec<u8>, AllocError>
    ensures { (bytes : List ℕ) → AreBytes bytes → shown.now ≡ flat_map (piece form) bytes
        → IfOk result (λ v. v.items ≡ bytes) }
{
    let mut bytes = Vec::new(alloc);
    let mut left = shown;
    while let Some((byte, rest)) = first(form, left) {
        bytes.push(byte)?;
        left = rest;
    }
    Ok(bytes)
}

/// Returns what is between the first byte and the last.
fn within(text: &[u8]) -> &[u8]
    ensures { (a b : ℕ) (inner : List ℕ) → text.now ≡ a ∷ inner ++ b ∷ [] → result.now ≡ inner }
{
    match text {
        [_, inner @ .., _] => inner,
        _ => &[],
    }
}

/// Returns what follows the first byte.
fn behind_first(text: &[u8]) -> &[u8]
    ensures { (a : ℕ) (inner : List ℕ) → text.now ≡ a ∷ inner → result.now ≡ inner }
{
    match text {
        [_, inner @ ..] => inner,
        [] => &[],
    }
}

/// Returns the text in quotes.
fn read_text(alloc: Global, text: &[u8]) -> Result<Option<Value>, AllocError>
    ensures only { (v : Value) → Spells Kind.Text text.now v → IfOk result (λ r. r ≡ Some v) }
    ensures held { IfOk result (λ r. IfSome r IsHeadValue) }
{
    match Text::from_utf8(unshown(alloc, Form::Quoted, within(text))?) {
        Ok(text) => Ok(Some(Value::Text(text))),
        Err(_) => Ok(None),
    }
}

/// Returns the bytes after a `#`.
fn read_opaque(alloc: Global, text: &[u8]) -> Result<Option<Value>, AllocError>
    ensures only { (v : Value) → Spells Kind.Opaque text.now v → IfOk result (λ r. r ≡ Some v) }
    ensures held { IfOk result (λ r. IfSome r IsHeadValue) }
{
    let bytes = unshown(alloc, Form::Hex, behind_first(text))?;
    Ok(Some(opaque(bytes)))
}

fn opaque(bytes: Vec<u8>) -> Value
    ensures value { result ≡ Value.Opaque bytes.items }
    ensures held { IsHeadValue result }
{
    Value::Opaque(Bytes::from(bytes))
}

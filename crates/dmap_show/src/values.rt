//! The line of one tag.

ghost use Rattle.std.specs.Prelude.{◌≡◌, ◌∷◌, ◌++◌, decimal, flat_map, OnOk, OnErr, [], true};
ghost use Rattle.std.specs.Str.{is_utf8};
ghost use Rattle.dmap_tags.specs.Codes.{Four};
ghost use Rattle.dmap_tags.specs.Begins.{Begins};
ghost use Rattle.dmap_tags.specs.Seen.{tree_with};
ghost use Rattle.dmap_show.specs.Readable.{AreBytes, IsCode, HasValue};
ghost use Rattle.dmap_show.specs.Shown.{hex, dotted, indent, shown_code, word_of, space_of, text_of, shown_line};

use crate::adding::{
    push_code, push_hex_digits, push_indent, push_number, push_quoted, push_signed, push_str,
};
use dmap_tags::{Code, Value};
use std::alloc::AllocError;

/// Returns the word of a value's kind with the spaces around it. No space follows that of a list.
#[inline(always)]
fn word(value: &Value) -> &'static str
    ensures { (c : Four) → result.now
        ≡ 32 ∷ word_of (tree_with c value.now) ++ space_of (tree_with c value.now) }
{
    match value {
        Value::U8(_) => " u8 ",
        Value::I8(_) => " i8 ",
        Value::U16(_) => " u16 ",
        Value::I16(_) => " i16 ",
        Value::U32(_) => " u32 ",
        Value::I32(_) => " i32 ",
        Value::U64(_) => " u64 ",
        Value::I64(_) => " i64 ",
        Value::Text(_) => " text ",
        Value::Date(_) => " date ",
        Value::Version(_) => " version ",
        Value::List(_) => " list",
        Value::Opaque(_) => " opaque ",
    }
}

/// Appends bytes whose kind is unknown, in hex.
fn push_opaque(bytes: &[u8], out: &mut Vec<u8>) -> Result<(), AllocError>
    ensures shown { OnOk result (out.new.items ≡ out.old.items ++ 35 ∷ flat_map hex bytes.now) }
    ensures held { AreBytes bytes.now }
    ensures text { is_utf8 out.old.items ≡ true → OnOk result (is_utf8 out.new.items ≡ true) }
    ensures front { OnErr result (Begins out.old.items out.new.items) }
{
    push_str("#", out)?;
    push_hex_digits(bytes, out)
}

/// Appends the three parts of a version.
fn push_version(n: u32, out: &mut Vec<u8>) -> Result<(), AllocError>
    ensures shown { OnOk result (out.new.items ≡ out.old.items ++ dotted n) }
    ensures text { is_utf8 out.old.items ≡ true → OnOk result (is_utf8 out.new.items ≡ true) }
    ensures front { OnErr result (Begins out.old.items out.new.items) }
{
    let version = u64::from(n);
    push_part(version / 65_536, out)?;
    push_part(version / 256 % 256, out)?;
    push_number(version % 256, out)
}

/// Appends a part of a version and a dot.
fn push_part(n: u64, out: &mut Vec<u8>) -> Result<(), AllocError>
    ensures shown { OnOk result (out.new.items ≡ out.old.items ++ decimal n ++ 46 ∷ []) }
    ensures text { is_utf8 out.old.items ≡ true → OnOk result (is_utf8 out.new.items ≡ true) }
    ensures front { OnErr result (Begins out.old.items out.new.items) }
{
    push_number(n, out)?;
    push_str(".", out)
}

/// Appends a tag's value as its line has it: nothing for a list.
#[inline(always)]
fn push_value(value: &Value, out: &mut Vec<u8>) -> Result<(), AllocError>
    ensures shown { (c : Four) → OnOk result
        (out.new.items ≡ out.old.items ++ text_of (tree_with c value.now)) }
    ensures held { (c : Four) → HasValue (tree_with c value.now) }
    ensures text { is_utf8 out.old.items ≡ true → OnOk result (is_utf8 out.new.items ≡ true) }
    ensures front { OnErr result (Begins out.old.items out.new.items) }
{
    match value {
        Value::U8(n) => push_number(u64::from(*n), out),
        Value::I8(n) => push_signed(i64::from(*n), out),
        Value::U16(n) => push_number(u64::from(*n), out),
        Value::I16(n) => push_signed(i64::from(*n), out),
        Value::U32(n) => push_number(u64::from(*n), out),
        Value::I32(n) => push_signed(i64::from(*n), out),
        Value::U64(n) => push_number(*n, out),
        Value::I64(n) => push_signed(*n, out),
        Value::Text(text) => push_quoted(text, out),
        Value::Date(n) => push_number(u64::from(*n), out),
        Value::Version(n) => push_version(*n, out),
        Value::List(_) => Ok(()),
        Value::Opaque(bytes) => push_opaque(bytes.as_slice(), out),
    }
}

/// Appends what follows the word of a value's kind.
#[inline(always)]
fn push_rest(value: &Value, out: &mut Vec<u8>) -> Result<(), AllocError>
    ensures shown { (c : Four) → OnOk result
        (out.new.items ≡ out.old.items ++ (text_of (tree_with c value.now) ++ 10 ∷ [])) }
    ensures held { (c : Four) → OnOk result (HasValue (tree_with c value.now)) }
    ensures text { is_utf8 out.old.items ≡ true → OnOk result (is_utf8 out.new.items ≡ true) }
    ensures front { OnErr result (Begins out.old.items out.new.items) }
{
    push_value(value, out)?;
    push_str("\n", out)
}

/// Appends the beginning of a line: the spaces of its level, the code, and a word with the spaces around it.
#[inline(always)]
pub(crate) fn push_front(
    level: u64,
    code: Code,
    word: &str,
    out: &mut Vec<u8>,
) -> Result<(), AllocError>
    ensures shown { OnOk result (out.new.items
        ≡ out.old.items ++ (indent level ++ shown_code code ++ word.now)) }
    ensures held { OnOk result (IsCode code) }
    ensures text { is_utf8 out.old.items ≡ true → OnOk result (is_utf8 out.new.items ≡ true) }
    ensures front { OnErr result (Begins out.old.items out.new.items) }
{
    push_indent(level, out)?;
    push_code(code, out)?;
    push_str(word, out)
}

/// Appends the line of a tag itself.
pub(crate) fn push_line(
    level: u64,
    code: Code,
    value: &Value,
    out: &mut Vec<u8>,
) -> Result<(), AllocError>
    ensures shown { OnOk result (out.new.items
        ≡ out.old.items ++ shown_line level (tree_with code value.now)) }
    ensures held { OnOk result (IsCode code × HasValue (tree_with code value.now)) }
    ensures text { is_utf8 out.old.items ≡ true → OnOk result (is_utf8 out.new.items ≡ true) }
    ensures front { OnErr result (Begins out.old.items out.new.items) }
{
    push_front(level, code, word(value), out)?;
    push_rest(value, out)
}

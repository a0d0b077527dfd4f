//! Appends pieces of text to a buffer. If an allocation fails, the buffer has what it had before, and maybe a part of
//! the piece after it.

ghost use Rattle.std.specs.Prelude.{◌≡◌, ◌<◌, ◌≤◌, ◌∷◌, [], ◌++◌, OnOk, OnErr, IsAscii, flat_map, true};
ghost use Rattle.std.specs.Str.{is_utf8};
ghost use Rattle.std.specs.Fmt.{signed_decimal, decimal};
ghost use Rattle.std.specs.Char.{digit_char, is_ascii_graphic};
ghost use Rattle.std.specs.List.{list_all};
ghost use Rattle.dmap_tags.specs.Begins.{Begins};
ghost use Rattle.dmap_show.specs.Readable.{IsCode};
ghost use Rattle.dmap_show.specs.Shown.{indent, hex, shown_code, escaped, quoted};

use dmap_tags::{Code, Text};
use itoa::Buffer;
use std::alloc::AllocError;

/// The spaces before a line with 32 lists around it: more lists than a reader opens.
const SPACES: [u8; 64] = [b' '; 64];

/// The level of those spaces.
const SPACED: u64 = 32;

/// Appends a text as it is.
#[inline(always)]
pub(crate) fn push_str(text: &str, out: &mut Vec<u8>) -> Result<(), AllocError>
    ensures shown { OnOk result (out.new.items ≡ out.old.items ++ text.now) }
    ensures text { is_utf8 out.old.items ≡ true → OnOk result (is_utf8 out.new.items ≡ true) }
    ensures front { OnErr result (Begins out.old.items out.new.items) }
{
    out.extend_from_slice(text.as_bytes())?;
    Ok(())
}

/// Appends ASCII characters as they are.
#[inline(always)]
fn push_ascii(bytes: &[u8], out: &mut Vec<u8>) -> Result<(), AllocError>
    requires { IsAscii bytes.now }
    ensures shown { OnOk result (out.new.items ≡ out.old.items ++ bytes.now) }
    ensures text { is_utf8 out.old.items ≡ true → OnOk result (is_utf8 out.new.items ≡ true) }
    ensures front { OnErr result (Begins out.old.items out.new.items) }
{
    out.extend_from_slice(bytes)?;
    Ok(())
}

/// Appends the spaces before a line of that level.
pub(crate) fn push_indent(level: u64, out: &mut Vec<u8>) -> Result<(), AllocError>
    ensures shown { OnOk result (out.new.items ≡ out.old.items ++ indent level) }
    ensures text { is_utf8 out.old.items ≡ true → OnOk result (is_utf8 out.new.items ≡ true) }
    ensures front { OnErr result (Begins out.old.items out.new.items) }
{
    let mut left = level;
    while left > SPACED {
        push_ascii(spaces(SPACED), out)?;
        left -= SPACED;
    }
    push_ascii(spaces(left), out)
}

/// Returns the spaces before a line of a level that is not too deep.
#[inline(always)]
fn spaces(level: u64) -> &'static [u8]
    requires { level ≤ 32 }
    ensures shown { result.now ≡ indent level }
    ensures ascii { IsAscii result.now }
{
    let (front, _) = SPACES.split_at(2 * level as usize);
    front
}

/// Appends a number in decimal.
pub(crate) fn push_number(n: u64, out: &mut Vec<u8>) -> Result<(), AllocError>
    ensures shown { OnOk result (out.new.items ≡ out.old.items ++ decimal n) }
    ensures text { is_utf8 out.old.items ≡ true → OnOk result (is_utf8 out.new.items ≡ true) }
    ensures front { OnErr result (Begins out.old.items out.new.items) }
{
    push_str(Buffer::new().format(n), out)
}

/// Appends a number in decimal, with a sign if it is negative.
pub(crate) fn push_signed(n: i64, out: &mut Vec<u8>) -> Result<(), AllocError>
    ensures shown { OnOk result (out.new.items ≡ out.old.items ++ signed_decimal n) }
    ensures text { is_utf8 out.old.items ≡ true → OnOk result (is_utf8 out.new.items ≡ true) }
    ensures front { OnErr result (Begins out.old.items out.new.items) }
{
    push_str(Buffer::new().format(n), out)
}

/// Returns the lower-case hex digit of a number below 16.
fn hex_digit(n: u8) -> u8
    requires { n < 16 }
    ensures digit { result ≡ digit_char n }
    ensures ascii { result < 128 }
{
    if n < 10 { b'0' + n } else { b'a' + (n - 10) }
}

/// Appends a byte as two hex digits.
fn push_hex(byte: u8, out: &mut Vec<u8>) -> Result<(), AllocError>
    ensures shown { OnOk result (out.new.items ≡ out.old.items ++ hex byte) }
    ensures text { is_utf8 out.old.items ≡ true → OnOk result (is_utf8 out.new.items ≡ true) }
    ensures front { OnErr result (Begins out.old.items out.new.items) }
{
    push_ascii(&[hex_digit(byte / 16), hex_digit(byte % 16)], out)
}

/// Appends each byte as two hex digits.
pub(crate) fn push_hex_digits(bytes: &[u8], out: &mut Vec<u8>) -> Result<(), AllocError>
    ensures shown { OnOk result (out.new.items ≡ out.old.items ++ flat_map hex bytes.now) }
    ensures text { is_utf8 out.old.items ≡ true → OnOk result (is_utf8 out.new.items ≡ true) }
    ensures front { OnErr result (Begins out.old.items out.new.items) }
{
    for byte in bytes {
        push_hex(*byte, out)?;
    }
    Ok(())
}

/// Returns whether all characters are from `!` to `~`.
fn is_graphic(bytes: &[u8]) -> bool
    ensures { result ≡ list_all is_ascii_graphic bytes.now }
{
    bytes.iter().all(|byte| byte.is_ascii_graphic())
}

/// Appends a content code: its four characters, or `x` and hex digits if not all are from `!` to `~`.
#[tactic(auto, using(dmap_tags::proofs::Fronts::begins_more, crate::proofs::Utf8::graphic_ascii))]
pub(crate) fn push_code(code: Code, out: &mut Vec<u8>) -> Result<(), AllocError>
    ensures held { IsCode code }
    ensures shown { OnOk result (out.new.items ≡ out.old.items ++ shown_code code) }
    ensures text { is_utf8 out.old.items ≡ true → OnOk result (is_utf8 out.new.items ≡ true) }
    ensures front { OnErr result (Begins out.old.items out.new.items) }
{
    let bytes = code.0;
    if is_graphic(&bytes) {
        return push_ascii(&bytes, out);
    }
    push_str("x", out)?;
    push_hex_digits(&bytes, out)
}

/// Appends a byte of a text within quotes.
fn push_escaped(byte: u8, out: &mut Vec<u8>) -> Result<(), AllocError>
    ensures shown { OnOk result (out.new.items ≡ out.old.items ++ escaped byte) }
    ensures front { OnErr result (Begins out.old.items out.new.items) }
{
    match byte {
        b'"' => push_str("\\\"", out),
        b'\\' => push_str("\\\\", out),
        0..=31 | 127 => {
            push_str("\\x", out)?;
            push_hex(byte, out)
        }
        _ => out.extend_from_slice(&[byte]),
    }
}

/// Returns whether no byte is escaped within quotes.
#[inline(always)]
fn are_plain(bytes: &[u8]) -> bool
    ensures { result ≡ true → flat_map escaped bytes.now ≡ bytes.now }
{
    for byte in bytes {
        if !is_plain(*byte) {
            return false;
        }
    }
    true
}

#[inline(always)]
fn is_plain(byte: u8) -> bool
    ensures { result ≡ true → escaped byte ≡ byte ∷ [] }
{
    match byte {
        b'"' | b'\\' | 0..=31 | 127 => false,
        _ => true,
    }
}

/// Appends the bytes of a text as they are within quotes, at once if no byte is escaped.
#[inline(always)]
fn push_escaped_bytes(bytes: &[u8], out: &mut Vec<u8>) -> Result<(), AllocError>
    ensures shown { OnOk result (out.new.items ≡ out.old.items ++ flat_map escaped bytes.now) }
    ensures front { OnErr result (Begins out.old.items out.new.items) }
{
    if are_plain(bytes) {
        out.extend_from_slice(bytes)
    } else {
        push_all_escaped(bytes, out)
    }
}

#[cold]
#[inline(never)]
fn push_all_escaped(bytes: &[u8], out: &mut Vec<u8>) -> Result<(), AllocError>
    ensures shown { OnOk result (out.new.items ≡ out.old.items ++ flat_map escaped bytes.now) }
    ensures front { OnErr result (Begins out.old.items out.new.items) }
{
    for byte in bytes {
        push_escaped(*byte, out)?;
    }
    Ok(())
}

/// Appends a text as it is within quotes.
fn push_escaped_text(text: &str, out: &mut Vec<u8>) -> Result<(), AllocError>
    ensures shown { OnOk result (out.new.items ≡ out.old.items ++ flat_map escaped text.now) }
    ensures text { is_utf8 out.old.items ≡ true → OnOk result (is_utf8 out.new.items ≡ true) }
    ensures front { OnErr result (Begins out.old.items out.new.items) }
{
    push_escaped_bytes(text.as_bytes(), out)?;
    Ok(())
}

fn str_of(text: &Text) -> &str
    ensures value { result.now ≡ text.now }
    ensures held { is_utf8 text.now ≡ true }
{
    text.as_str()
}

/// Appends a text in quotes.
pub(crate) fn push_quoted(text: &Text, out: &mut Vec<u8>) -> Result<(), AllocError>
    ensures shown { OnOk result (out.new.items ≡ out.old.items ++ quoted text.now) }
    ensures held { is_utf8 text.now ≡ true }
    ensures text { is_utf8 out.old.items ≡ true → OnOk result (is_utf8 out.new.items ≡ true) }
    ensures front { OnErr result (Begins out.old.items out.new.items) }
{
    let text = str_of(text);
    push_str("\"", out)?;
    push_escaped_text(text, out)?;
    push_str("\"", out)
}

//! The parts of lines.

ghost use Rattle.std.specs.Prelude.{◌≡◌, ◌<◌, ◌≤◌, ◌+◌, ◌^◌, ◌∷◌, ◌++◌, ◌/◌, ◌%◌, ℕ, ℤ, List, decimal, flat_map, length, IfOk, IfSome, Some, None, ◌≢◌, MatchOption, true, false};
ghost use Rattle.std.specs.Char.{digit_char};
ghost use Rattle.std.specs.Fmt.{signed_decimal};
ghost use Rattle.std.specs.Int.{w64};
ghost use Rattle.std.specs.Str.{bytes_eq};
ghost use Rattle.std.specs.Int.RustNames.{FitsSigned};
ghost use Rattle.dmap_tags.specs.Codes.{Four};
ghost use Rattle.dmap_show.specs.Shown.{hex, escaped, shown_code};
ghost use Rattle.dmap_show.specs.Readable.{AreBytes, IsCode};
ghost use Rattle.dmap_show.specs.TextLines.{before, behind, has};
ghost use Rattle.dmap_show.specs.Parts.{pairs_in_front, behind_pairs, kind_named};

use dmap_tags::{Code, Kind};
use std::str::from_utf8;

/// Returns the bytes before the first `mark` and those after it, or `None` if there is no `mark`.
pub(crate) fn split_once_at(bytes: &[u8], mark: u8) -> Option<(&[u8], &[u8])>
    ensures { MatchOption result (has mark bytes.now ≡ false)
        (λ r. (has mark bytes.now ≡ true) × ((r.0.now ≡ before mark bytes.now) × (r.1.now ≡ behind mark bytes.now))) }
{
    for place in 0..bytes.len() {
        if bytes[place] == mark {
            return Some((&bytes[..place], &bytes[place + 1..]));
        }
    }
    None
}

/// Returns the bytes before the first `mark` and those after it. If there is no `mark`, these are all bytes and none.
#[tactic(auto, using(crate::proofs::Taken::before_none, crate::proofs::Taken::behind_none))]
pub(crate) fn split_at_byte(bytes: &[u8], mark: u8) -> (&[u8], &[u8])
    ensures { (result.0.now ≡ before mark bytes.now) × (result.1.now ≡ behind mark bytes.now) }
{
    match split_once_at(bytes, mark) {
        Some(parts) => parts,
        None => (bytes, &[]),
    }
}

/// Returns the number of pairs of spaces at the beginning, and what follows them.
pub(crate) fn split_indent(bytes: &[u8]) -> (u64, &[u8])
    ensures { (result.0 ≡ pairs_in_front bytes.now) × (result.1.now ≡ behind_pairs bytes.now) }
{
    let mut level = 0;
    let mut left = bytes;
    while let [b' ', b' ', rest @ ..] = left {
        level += 1;
        left = rest;
    }
    (level, left)
}

/// Returns the kind of a word.
pub(crate) fn kind_named(word: &[u8]) -> Kind
    ensures { result ≡ kind_named word.now }
{
    if is_word(word, "u8") {
        Kind::U8
    } else if is_word(word, "i8") {
        Kind::I8
    } else if is_word(word, "u16") {
        Kind::U16
    } else if is_word(word, "i16") {
        Kind::I16
    } else if is_word(word, "u32") {
        Kind::U32
    } else if is_word(word, "i32") {
        Kind::I32
    } else if is_word(word, "u64") {
        Kind::U64
    } else if is_word(word, "i64") {
        Kind::I64
    } else if is_word(word, "text") {
        Kind::Text
    } else if is_word(word, "date") {
        Kind::Date
    } else if is_word(word, "version") {
        Kind::Version
    } else if is_word(word, "list") {
        Kind::List
    } else {
        Kind::Opaque
    }
}

/// Returns whether the bytes are that word.
fn is_word(bytes: &[u8], word: &str) -> bool
    ensures { result ≡ bytes_eq bytes.now word.now }
{
    bytes == word.as_bytes()
}

/// Returns the number whose decimal the bytes are.
pub(crate) fn number(bytes: &[u8]) -> Option<u64>
    ensures { (n : ℕ) → n < 2 ^ 64 → bytes.now ≡ decimal n → result ≡ Some n }
{
    match from_utf8(bytes) {
        Ok(text) => number_in(text),
        Err(_) => None,
    }
}

fn number_in(text: &str) -> Option<u64>
    ensures { (n : ℕ) → n < 2 ^ 64 → text.now ≡ decimal n → result ≡ Some n }
{
    text.parse().ok()
}

/// Returns the number, with a sign if it is negative, whose decimal the bytes are.
pub(crate) fn signed_number(bytes: &[u8]) -> Option<i64>
    ensures { (z : ℤ) → FitsSigned w64 z → bytes.now ≡ signed_decimal z → result ≡ Some z }
{
    match from_utf8(bytes) {
        Ok(text) => signed_number_in(text),
        Err(_) => None,
    }
}

fn signed_number_in(text: &str) -> Option<i64>
    ensures { (z : ℤ) → FitsSigned w64 z → text.now ≡ signed_decimal z → result ≡ Some z }
{
    text.parse().ok()
}

/// Returns the byte of two hex digits.
fn byte_of(high: u8, low: u8) -> u8
    ensures { (b : ℕ) → b < 256 → high ≡ digit_char (b / 16) → low ≡ digit_char (b % 16)
        → result ≡ b }
{
    hex_value(high)
        .wrapping_mul(16)
        .wrapping_add(hex_value(low))
}

/// Returns the value of a lower-case hex digit.
fn hex_value(digit: u8) -> u8
    ensures { (n : ℕ) → n < 16 → digit ≡ digit_char n → result ≡ n }
{
    if digit < b'a' {
        digit.wrapping_sub(b'0')
    } else {
        digit - b'a' + 10
    }
}

/// Returns the byte of two hex digits at the beginning, and what follows them.
pub(crate) fn first_hex(bytes: &[u8]) -> Option<(u8, &[u8])>
    ensures shown { (b : ℕ) (more : List ℕ) → b < 256 → bytes.now ≡ hex b ++ more
        → IfSome result (λ r. (r.0 ≡ b) × (r.1.now ≡ more)) }
    ensures there { (b : ℕ) (more : List ℕ) → bytes.now ≡ hex b ++ more → result ≢ None }
    ensures shorter { IfSome result (λ r. length r.1.now < length bytes.now) }
{
    match bytes {
        [high, low, rest @ ..] => Some((byte_of(*high, *low), rest)),
        _ => None,
    }
}

/// Returns the first byte of a quoted text, and what follows it.
pub(crate) fn first_quoted(bytes: &[u8]) -> Option<(u8, &[u8])>
    ensures shown { (b : ℕ) (more : List ℕ) → b < 256 → bytes.now ≡ escaped b ++ more
        → IfSome result (λ r. (r.0 ≡ b) × (r.1.now ≡ more)) }
    ensures there { (b : ℕ) (more : List ℕ) → bytes.now ≡ escaped b ++ more → result ≢ None }
    ensures shorter { IfSome result (λ r. length r.1.now < length bytes.now) }
{
    match bytes {
        [b'\\', rest @ ..] => first_escaped(rest),
        [byte, rest @ ..] => Some((*byte, rest)),
        [] => None,
    }
}

/// Returns the byte that is shown after a backslash, and what follows it.
fn first_escaped(bytes: &[u8]) -> Option<(u8, &[u8])>
    ensures shown { (b : ℕ) (more : List ℕ) → b < 256 → 92 ∷ bytes.now ≡ escaped b ++ more
        → IfSome result (λ r. (r.0 ≡ b) × (r.1.now ≡ more)) }
    ensures there { (b : ℕ) (more : List ℕ) → 92 ∷ bytes.now ≡ escaped b ++ more → result ≢ None }
    ensures shorter { IfSome result (λ r. length r.1.now < length bytes.now) }
{
    match bytes {
        [b'x', digits @ ..] => first_hex(digits),
        [byte, rest @ ..] => Some((*byte, rest)),
        [] => None,
    }
}

/// Returns the content code that is shown so.
pub(crate) fn read_code(bytes: &[u8]) -> Option<Code>
    ensures only { (c : Four) → IsCode c → bytes.now ≡ shown_code c → result ≡ Some c }
    ensures held { IfSome result IsCode }
{
    match bytes {
        [a, b, c, d] => Some(Code([*a, *b, *c, *d])),
        [_, a, b, c, d, e, f, g, h] => Some(Code([
            byte_of(*a, *b),
            byte_of(*c, *d),
            byte_of(*e, *f),
            byte_of(*g, *h),
        ])),
        _ => None,
    }
}

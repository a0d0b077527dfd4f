//! Writes bytes and content codes as text, and reads them back.

ghost use Rattle.std.specs.Prelude.{◌≡◌, ◌<◌, ◌++◌, ◌∷◌, [], ℕ, List, flat_map, false, if◌then◌else◌, Some, None, IfOk, MatchOption, OnOk};
ghost use Rattle.std.specs.Char.{digit_char, is_ascii_graphic};
ghost use Rattle.std.specs.List.{list_all};
ghost use Rattle.dmap_tags.specs.Codes.{Four, code_bytes};
ghost use Rattle.dmap_show.specs.Readable.{AreBytes, IsCode};
ghost use Rattle.dmap_show.specs.Shown.{hex, shown_code};

use dmap_show::show_code;
use dmap_tags::{Code, Text};
use std::alloc::{AllocError, Global};

/// Returns a content code as text: its four characters if all are from `!` to `~`, otherwise an `x` and its hex digits.
#[tactic(auto, using(crate::proofs::Hexed::code_utf8))]
pub(crate) fn code_text(alloc: Global, code: Code) -> Result<Text, AllocError>
    ensures text { IfOk result (λ text. text ≡ shown_code code) }
    ensures held { OnOk result (IsCode code) }
{
    let mut shown = Vec::with_capacity(alloc, 9)?;
    show_code(code, &mut shown)?;
    match Text::from_utf8(shown) {
        Ok(text) => Ok(text),
        Err(_) => unreachable!(),
    }
}

/// Returns bytes as text, two lower-case hex digits for each.
#[tactic(auto, using(crate::proofs::Hexed::hex_utf8))]
pub(crate) fn hex_text(alloc: Global, bytes: &[u8]) -> Result<Text, AllocError>
    ensures text { IfOk result (λ text. text ≡ flat_map hex bytes.now) }
    ensures held { AreBytes bytes.now }
{
    let mut digits = Vec::new(alloc);
    for byte in bytes {
        digits.extend_from_slice(&[hex_digit(*byte / 16), hex_digit(*byte % 16)])?;
    }
    match Text::from_utf8(digits) {
        Ok(text) => Ok(text),
        Err(_) => unreachable!(),
    }
}

/// Returns the lower-case hex digit of a number below 16.
fn hex_digit(n: u8) -> u8
    requires { n < 16 }
    ensures { result ≡ digit_char n }
{
    if n < 10 { b'0' + n } else { b'a' + (n - 10) }
}

/// Returns the number of a lower-case hex digit.
fn digit_value(digit: u8) -> Option<u8>
    ensures { MatchOption result ((n : ℕ) → n < 16 → digit ≡ digit_char n → ⊥) (λ n. (n < 16)
        × (digit ≡ digit_char n)) }
{
    match digit {
        b'0'..=b'9' => Some(digit - b'0'),
        b'a'..=b'f' => Some(digit - b'a' + 10),
        _ => None,
    }
}

/// Returns the byte of two lower-case hex digits.
fn byte_from(high: u8, low: u8) -> Option<u8>
    ensures { MatchOption result ((b : ℕ) → b < 256 → high ∷ low ∷ [] ≡ hex b → ⊥) (λ b. (b < 256)
        × (high ∷ low ∷ [] ≡ hex b)) }
{
    let high = digit_value(high)?;
    let low = digit_value(low)?;
    Some(high * 16 + low)
}

/// Returns the byte of the first two hex digits, and the digits after them.
fn first_byte(digits: &[u8]) -> Option<(u8, &[u8])>
    ensures { MatchOption result ((b : ℕ) (more : List ℕ) → b < 256 → digits.now ≡ hex b ++ more
        → ⊥)
        (λ r. (r.0 < 256) × (digits.now ≡ hex r.0 ++ r.1.now)) }
{
    match digits {
        [high, low, rest @ ..] => Some((byte_from(*high, *low)?, rest)),
        _ => None,
    }
}

/// Returns the bytes of lower-case hex digits.
pub(crate) fn bytes_from(alloc: Global, digits: &[u8]) -> Result<Option<Vec<u8>>, AllocError>
    ensures { IfOk result (λ r. MatchOption r ((bytes : List ℕ) → AreBytes bytes
        → digits.now ≡ flat_map hex bytes → ⊥)
        (λ v. AreBytes v.items × (digits.now ≡ flat_map hex v.items))) }
{
    let mut bytes = Vec::with_capacity(alloc, digits.len() / 2)?;
    let mut left = digits;
    while !left.is_empty() {
        let Some((byte, rest)) = first_byte(left) else {
            return Ok(None);
        };
        bytes.push(byte)?;
        left = rest;
    }
    Ok(Some(bytes))
}

/// Returns the content code of a text that `code_text` returns for it.
pub(crate) fn code_from(text: &str) -> Option<Code>
    ensures { MatchOption result ((c : Four) → IsCode c → text.now ≡ shown_code c → ⊥)
        (λ c. IsCode c × (text.now ≡ shown_code c)) }
{
    match text.as_bytes() {
        [a, b, c, d] => graphic_code(Code([*a, *b, *c, *d])),
        [b'x', digits @ ..] => hex_code(digits),
        _ => None,
    }
}

/// Returns the code if its characters are from `!` to `~`.
fn graphic_code(code: Code) -> Option<Code>
    ensures held { IsCode code }
    ensures shown { result ≡ (if list_all is_ascii_graphic (code_bytes code) then Some code
        else None) }
{
    if is_graphic(code) { Some(code) } else { None }
}

/// Returns whether all characters of a code are from `!` to `~`.
fn is_graphic(code: Code) -> bool
    ensures { result ≡ list_all is_ascii_graphic (code_bytes code) }
{
    let bytes = code.0;
    bytes.iter().all(|byte| byte.is_ascii_graphic())
}

/// Returns the code of eight hex digits, if one of its characters is not from `!` to `~`.
fn hex_code(digits: &[u8]) -> Option<Code>
    ensures { MatchOption result ((c : Four) → IsCode c
        → list_all is_ascii_graphic (code_bytes c) ≡ false
        → digits.now ≡ flat_map hex (code_bytes c) → ⊥)
        (λ c. IsCode c × ((list_all is_ascii_graphic (code_bytes c) ≡ false) × (digits.now ≡ flat_map hex (code_bytes c)))) }
{
    let code = four_bytes(digits)?;
    if is_graphic(code) { None } else { Some(code) }
}

/// Returns the code of eight hex digits.
fn four_bytes(digits: &[u8]) -> Option<Code>
    ensures { MatchOption result ((c : Four) → IsCode c → digits.now ≡ flat_map hex (code_bytes c)
        → ⊥)
        (λ c. IsCode c × (digits.now ≡ flat_map hex (code_bytes c))) }
{
    match digits {
        [a, b, c, d, e, f, g, h] => Some(Code([
            byte_from(*a, *b)?,
            byte_from(*c, *d)?,
            byte_from(*e, *f)?,
            byte_from(*g, *h)?,
        ])),
        _ => None,
    }
}

//! Reads one line of a script.

ghost use Rattle.std.specs.Prelude.{◌≡◌, ◌≢◌, [], ◌<◌, length, Some, None, IfOk, IfSome, MatchOption};
ghost use Rattle.share_replay.specs.Lines.{hex_value, escape_of, hex_byte, in_front, written_by, number_in, before, behind, first_word, other_words, role_in, open_told, text_told, close_told, line_tells};

use crate::delivery::Delivery;
use dmap_tags::Bytes;
use share_asks::Role;
use std::alloc::{AllocError, Global};

/// Returns the delivery of a line without its line feed; `None` if the line is malformed.
pub(crate) fn read_line(alloc: Global, line: &[u8]) -> Result<Option<Delivery>, AllocError>
    ensures { IfOk result (λ told. told ≡ line_tells line.now) }
{
    let Some((word, rest)) = split_word(line) else {
        return Ok(None);
    };
    if word == b"open".as_slice() {
        return Ok(read_open(rest));
    }
    if word == b"text".as_slice() {
        return read_text(alloc, rest);
    }
    if word == b"close".as_slice() {
        return Ok(read_close(rest));
    }
    Ok(None)
}

fn read_open(rest: &[u8]) -> Option<Delivery>
    ensures { result ≡ open_told rest.now }
{
    let (word, role) = split_word(rest)?;
    let number = read_number(word)?;
    let role = role_in(role)?;
    Some(Delivery::Open { number, role })
}

fn read_text(alloc: Global, rest: &[u8]) -> Result<Option<Delivery>, AllocError>
    ensures { IfOk result (λ told. told ≡ text_told rest.now) }
{
    let Some((word, text)) = split_word(rest) else {
        return Ok(None);
    };
    let Some(number) = read_number(word) else {
        return Ok(None);
    };
    let Some(bytes) = unescape(alloc, text)? else {
        return Ok(None);
    };
    Ok(Some(Delivery::Text { number, bytes }))
}

fn read_close(rest: &[u8]) -> Option<Delivery>
    ensures { result ≡ close_told rest.now }
{
    let number = read_number(rest)?;
    Some(Delivery::Close { number })
}

/// Returns what precedes the first space, and what follows it.
fn split_word(line: &[u8]) -> Option<(&[u8], &[u8])>
    ensures { MatchOption result (other_words line.now ≡ None)
        (λ r. (r.0.now ≡ first_word line.now) × (other_words line.now ≡ Some r.1.now)) }
{
    split_once_at(line, b' ')
}

/// Returns what precedes the first byte with the value `mark`, and what follows it.
pub(crate) fn split_once_at(bytes: &[u8], mark: u8) -> Option<(&[u8], &[u8])>
    ensures { MatchOption result (behind mark bytes.now ≡ None)
        (λ r. (r.0.now ≡ before mark bytes.now) × (behind mark bytes.now ≡ Some r.1.now)) }
{
    for place in 0..bytes.len() {
        if bytes[place] == mark {
            return Some((&bytes[..place], &bytes[place + 1..]));
        }
    }
    None
}

/// Returns the value of a number of one or two digits without a leading zero.
fn read_number(digits: &[u8]) -> Option<u32>
    ensures { result ≡ number_in digits.now }
{
    match digits {
        [a @ b'1'..=b'9'] => Some(u32::from(*a - b'0')),
        [a @ b'1'..=b'9', b @ b'0'..=b'9'] => {
            Some(u32::from(*a - b'0') * 10 + u32::from(*b - b'0'))
        }
        _ => None,
    }
}

fn role_in(word: &[u8]) -> Option<Role>
    ensures { result ≡ role_in word.now }
{
    if word == b"listen".as_slice() {
        Some(Role::Listen)
    } else if word == b"edit".as_slice() {
        Some(Role::Edit)
    } else {
        None
    }
}

/// Returns the bytes that a text encodes; `None` if a byte or an escape is malformed.
#[tactic(auto, using(crate::proofs::Texts::one_byte_more, crate::proofs::Texts::none_in_front))]
fn unescape(alloc: Global, text: &[u8]) -> Result<Option<Bytes>, AllocError>
    ensures { IfOk result (λ bytes. bytes ≡ written_by text.now) }
{
    let mut bytes = Vec::new(alloc);
    let mut left = text;
    while let Some((byte, rest)) = first_byte(left) {
        bytes.push(byte)?;
        left = rest;
    }
    if left.is_empty() {
        Ok(Some(Bytes::from(bytes)))
    } else {
        Ok(None)
    }
}

/// Returns the first byte that a text encodes, and the text after it.
fn first_byte(text: &[u8]) -> Option<(u8, &[u8])>
    ensures written { MatchOption result (text.now ≢ [] → written_by text.now ≡ None)
        (λ r. written_by text.now ≡ in_front (Some r.0) (written_by r.1.now)) }
    ensures shorter { IfSome result (λ r. length r.1.now < length text.now) }
{
    match text {
        [b'\\', b'x', high, low, rest @ ..] => Some((hex_byte(*high, *low)?, rest)),
        [b'\\', letter, rest @ ..] => Some((escape_of(*letter)?, rest)),
        [b'\\'] => None,
        [byte @ b' '..=b'~', rest @ ..] => Some((*byte, rest)),
        _ => None,
    }
}

fn escape_of(letter: u8) -> Option<u8>
    ensures { result ≡ escape_of letter }
{
    match letter {
        b'r' => Some(b'\r'),
        b'n' => Some(b'\n'),
        b'\\' => Some(b'\\'),
        _ => None,
    }
}

fn hex_byte(high: u8, low: u8) -> Option<u8>
    ensures { result ≡ hex_byte (hex_value high) (hex_value low) }
{
    let high = hex_value(high)?;
    let low = hex_value(low)?;
    Some(high * 16 + low)
}

/// Returns the value of a hex digit.
fn hex_value(digit: u8) -> Option<u8>
    ensures value { result ≡ hex_value digit }
    ensures small { IfSome result (λ value. value < 16) }
{
    match digit {
        b'0'..=b'9' => Some(digit - b'0'),
        b'A'..=b'F' => Some(digit - b'A' + 10),
        b'a'..=b'f' => Some(digit - b'a' + 10),
        _ => None,
    }
}

//! What the fields of a head say.

ghost use Rattle.std.specs.Prelude.{◌≡◌, ◌<◌, ◌||◌, ◌==◌, ◌∷◌, [], length, map, reverse, All, codes, Some, None, IfSome, IfNone};
ghost use Rattle.std.specs.List.{list_any, slice_split};
ghost use Rattle.std.specs.Str.{str_eq_ignore_ascii_case};
ghost use Rattle.httparse.specs.Grammar.{trim_ows, skip_ows, is_ows};
ghost use Rattle.httparse.specs.Spans.{header_bytes, IsHeaderWithin};
ghost use Rattle.http_heads.specs.Fields.{values, is_there, number_of, told_length, within_limit, body_length, unless_long, untold_length, reply_length, has_close, asks_to_close};

use crate::limits::{BODY_BYTES, DIGITS, REPLY_BYTES};
use crate::refusal::HeadError;
use httparse::spans::HeaderSpan;

/// Returns the length of a request's body.
/// Returns `Length` if the fields do not determine it, and `BodyTooLarge` if it is past the limit.
pub fn read_body_length(bytes: &[u8], spans: &[HeaderSpan]) -> Result<usize, HeadError>
    requires { All (IsHeaderWithin (length bytes.now)) spans.now }
    ensures { result ≡ body_length (map (header_bytes bytes.now) spans.now) }
{
    if has_field(bytes, spans, b"transfer-encoding") {
        return Err(HeadError::Length);
    }
    match read_told_length(bytes, spans, Some(0)) {
        Some(len) if len <= BODY_BYTES as u128 => Ok(len as usize),
        Some(_) => Err(HeadError::BodyTooLarge),
        None => Err(HeadError::Length),
    }
}

/// Returns the length of a reply's body, or `None` if the fields do not determine it or it is past the limit.
pub fn read_reply_length(status: u16, bytes: &[u8], spans: &[HeaderSpan]) -> Option<usize>
    requires { All (IsHeaderWithin (length bytes.now)) spans.now }
    ensures { result ≡ reply_length status (map (header_bytes bytes.now) spans.now) }
{
    if has_field(bytes, spans, b"transfer-encoding") {
        return None;
    }
    match read_told_length(bytes, spans, untold_length(status)) {
        Some(len) if len <= REPLY_BYTES as u128 => Some(len as usize),
        _ => None,
    }
}

// Returns the length of a body without a length field: a reply without content needs none.
fn untold_length(status: u16) -> Option<u128>
    ensures { result ≡ untold_length status }
{
    if status == 204 { Some(0) } else { None }
}

/// Returns whether the connection closes after the reply (RFC 9112, section 9).
pub fn is_last(version: u8, bytes: &[u8], spans: &[HeaderSpan]) -> bool
    requires { All (IsHeaderWithin (length bytes.now)) spans.now }
    ensures { result ≡ asks_to_close version (map (header_bytes bytes.now) spans.now) }
{
    version == 0 || some_closes(bytes, spans)
}

fn some_closes(bytes: &[u8], spans: &[HeaderSpan]) -> bool
    requires { All (IsHeaderWithin (length bytes.now)) spans.now }
    ensures { result ≡ list_any has_close
        (values (codes "connection") (map (header_bytes bytes.now) spans.now)) }
{
    let mut rest = spans;
    while let Some((value, behind)) = next_named(bytes, rest, b"connection") {
        if has_close(value) {
            return true;
        }
        rest = behind;
    }
    false
}

fn has_field(bytes: &[u8], spans: &[HeaderSpan], name: &[u8]) -> bool
    requires { All (IsHeaderWithin (length bytes.now)) spans.now }
    ensures { result ≡ is_there (values name.now (map (header_bytes bytes.now) spans.now)) }
{
    next_named(bytes, spans, name).is_some()
}

// Returns the length in the one `Content-Length` field, or `absent` without such a field.
fn read_told_length(bytes: &[u8], spans: &[HeaderSpan], absent: Option<u128>) -> Option<u128>
    requires { All (IsHeaderWithin (length bytes.now)) spans.now }
    ensures { result ≡ told_length absent
        (values (codes "content-length") (map (header_bytes bytes.now) spans.now)) }
{
    let Some((value, behind)) = next_named(bytes, spans, b"content-length") else {
        return absent;
    };
    if has_field(bytes, behind, b"content-length") {
        return None;
    }
    read_number(value)
}

// Returns the value of the first field called `name`, and the fields after it.
fn next_named<'b>(
    bytes: &'b [u8],
    spans: &'b [HeaderSpan],
    name: &[u8],
) -> Option<(&'b [u8], &'b [HeaderSpan])>
    requires { All (IsHeaderWithin (length bytes.now)) spans.now }
    ensures none { IfNone result (values name.now (map (header_bytes bytes.now) spans.now) ≡ []) }
    ensures some { IfSome result
        (λ r. values name.now (map (header_bytes bytes.now) spans.now)
        ≡ r.0.now ∷ values name.now (map (header_bytes bytes.now) r.1.now)) }
    ensures within { IfSome result (λ r. All (IsHeaderWithin (length bytes.now)) r.1.now) }
    ensures fewer { IfSome result (λ r. length r.1.now < length spans.now) }
{
    let mut rest = spans;
    while let [span, behind @ ..] = rest {
        if is_same_name(span.name.of(bytes), name) {
            return Some((span.value.of(bytes), behind));
        }
        rest = behind;
    }
    None
}

fn is_same_name(a: &[u8], b: &[u8]) -> bool
    ensures { result ≡ str_eq_ignore_ascii_case a.now b.now }
{
    a.eq_ignore_ascii_case(b)
}

// Returns whether one of the parts between commas is the token `close`.
fn has_close(value: &[u8]) -> bool
    ensures { result ≡ has_close value.now }
{
    value.split(|byte| *byte == b',').any(|part| is_close(part))
}

#[tactic(auto, unfolding(httparse::specs::Grammar::trim_ows))]
fn is_close(part: &[u8]) -> bool
    ensures { result ≡ str_eq_ignore_ascii_case (trim_ows part.now) (codes "close") }
{
    is_same_name(trimmed_end(trimmed_start(part)), b"close")
}

fn trimmed_start(part: &[u8]) -> &[u8]
    ensures { result.now ≡ skip_ows part.now }
{
    let mut rest = part;
    while let [first, behind @ ..] = rest {
        if !is_blank(*first) {
            return rest;
        }
        rest = behind;
    }
    rest
}

fn trimmed_end(part: &[u8]) -> &[u8]
    ensures { result.now ≡ reverse (skip_ows (reverse part.now)) }
{
    let mut rest = part;
    while let [before @ .., last] = rest {
        if !is_blank(*last) {
            return rest;
        }
        rest = before;
    }
    rest
}

fn is_blank(byte: u8) -> bool
    ensures { result ≡ is_ows byte }
{
    byte == b' ' || byte == b'\t'
}

// Returns the number that 1 to 20 digits write. Twenty may exceed 64 bits, but never 128.
#[tactic(auto, unfolding(crate::specs::Fields::number_of))]
fn read_number(text: &[u8]) -> Option<u128>
    ensures { result ≡ number_of text.now }
{
    if text.is_empty() || text.len() > DIGITS {
        return None;
    }
    let mut value: u128 = 0;
    for byte in text {
        if !byte.is_ascii_digit() {
            return None;
        }
        value = value * 10 + (*byte - b'0') as u128;
    }
    Some(value)
}

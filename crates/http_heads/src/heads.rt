//! Heads of requests.

ghost use Rattle.std.specs.Prelude.{◌≡◌, ◌≤◌, length, take, map, All, Ok, Err, MatchResult, MatchOption};
ghost use Rattle.std.specs.List.{list_any};
ghost use Rattle.httparse.specs.Grammar.{RequestHead, ReadsRequest};
ghost use Rattle.httparse.specs.Spans.{IsRequestWithin, IsRequestAt};
ghost use Rattle.http_heads.specs.Fields.{fields_of, asks_to_close, body_length};
ghost use Rattle.http_heads.specs.Heads.{IsHead, HasNoHead, RefusesRead};
ghost use Rattle.http_heads.specs.HeadsRead.{Reads, TellsHead};

use crate::fields::{is_last, read_body_length};
use crate::limits::FIELDS;
use crate::refusal::HeadError;
use httparse::Status;
use httparse::spans::{EMPTY_HEADER_SPAN, HeaderSpan, RequestSpans, parse_request};

/// The contents of a request's head.
#[derive(Drop)]
pub struct Head<'b> {
    pub method: &'b [u8],
    pub target: &'b [u8],
    /// Whether the connection closes after the reply.
    pub close: bool,
    /// The length of the body.
    pub len: usize,
}

/// Reads `bytes`, all of them, as a request's head.
/// Returns `Head` if they are not one, and `Length` or `BodyTooLarge` for the length of its body.
pub fn read_head(bytes: &[u8]) -> Result<Head<'_>, HeadError>
    ensures { MatchResult result (λ head. (h : RequestHead) × TellsHead bytes.now h head)
        (λ e. RefusesRead bytes.now e) }
{
    let mut room = [EMPTY_HEADER_SPAN; FIELDS];
    let Some(spans) = spans_of(bytes, &mut room) else {
        return Err(HeadError::Head);
    };
    let (fields, _) = room.split_at(spans.headers);
    let len = read_body_length(bytes, fields)?;
    Ok(Head {
        method: spans.method.of(bytes),
        target: spans.path.of(bytes),
        close: is_last(spans.version, bytes, fields),
        len,
    })
}

fn spans_of(bytes: &[u8], room: &mut [HeaderSpan; FIELDS]) -> Option<RequestSpans>
    ensures { MatchOption result (HasNoHead bytes.now) (λ spans. Reads bytes.now room.new spans) }
{
    match parse_request(bytes, room) {
        Ok(Status::Complete(spans)) if spans.len == bytes.len() => Some(spans),
        _ => None,
    }
}

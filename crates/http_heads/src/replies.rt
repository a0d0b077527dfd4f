//! Heads of replies.

ghost use Rattle.std.specs.Prelude.{◌≡◌, MatchOption};
ghost use Rattle.httparse.specs.Grammar.{ResponseHead};
ghost use Rattle.http_heads.specs.Heads.{HasNoReplyHead, RefusesReply};
ghost use Rattle.http_heads.specs.HeadsRead.{ReadsReply, TellsReplyHead};

use crate::fields::read_reply_length;
use crate::limits::FIELDS;
use httparse::Status;
use httparse::spans::{EMPTY_HEADER_SPAN, HeaderSpan, ResponseSpans, parse_response};

/// The contents of a reply's head.
#[derive(Drop)]
pub struct ReplyHead {
    pub status: u16,
    /// The length of the body.
    pub len: usize,
}

/// Reads `bytes`, all of them, as a reply's head. Returns `None` if they are not one, or its body has no valid
/// length.
pub fn read_reply_head(bytes: &[u8]) -> Option<ReplyHead>
    ensures { MatchOption result (RefusesReply bytes.now) (λ head. (h : ResponseHead)
        × TellsReplyHead bytes.now h head) }
{
    let mut room = [EMPTY_HEADER_SPAN; FIELDS];
    let spans = spans_of(bytes, &mut room)?;
    let (fields, _) = room.split_at(spans.headers);
    let len = read_reply_length(spans.code, bytes, fields)?;
    Some(ReplyHead {
        status: spans.code,
        len,
    })
}

fn spans_of(bytes: &[u8], room: &mut [HeaderSpan; FIELDS]) -> Option<ResponseSpans>
    ensures { MatchOption result (HasNoReplyHead bytes.now)
        (λ spans. ReadsReply bytes.now room.new spans) }
{
    match parse_response(bytes, room) {
        Ok(Status::Complete(spans)) if spans.len == bytes.len() => Some(spans),
        _ => None,
    }
}

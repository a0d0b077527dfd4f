//! The reader of replies.

ghost use Rattle.std.specs.Prelude.{◌≡◌, ◌≢◌, ◌<◌, ◌≤◌, ◌+◌, ◌^◌, ℕ, List, [], ◌++◌, length, take, false, None, Some, IfOk, IfSome, MatchBool, MatchOption, MatchResult, IsTrue, ◌↔◌, true, option_to_list};
ghost use Rattle.http_heads.specs.Gathering.{IsAt, is_whole, kept};
ghost use Rattle.httparse.specs.Grammar.{ResponseHead, status_code};
ghost use Rattle.http_heads.specs.Heads.{IsReplyHead};
ghost use Rattle.http_client.specs.Gathers.{Gathers, GivesReply};
ghost use Rattle.http_client.specs.Replies.{Reply, HasRead, fed_with};

use crate::refusal::ReplyError;
use dmap_tags::Bytes;
use http_heads::{Gatherer, HeadError, Kind, read_reply_head};
use std::alloc::Global;
use std::marker::Model;

/// Reads replies from bytes as they come.
pub struct ReplyReader {
    replies: Gatherer,
    ready: Option<(u16, Bytes)>,
    error: Option<ReplyError>,
    taken: u64,
}

impl Drop for ReplyReader {
    fn drop(self) {
        let ReplyReader {
            replies: _,
            ready: _,
            error: _,
            taken: _,
        } = self;
    }
}

impl Model for ReplyReader {
    ghost use Rattle.http_heads.specs.Gathering.{kept};
    ghost use Rattle.http_client.specs.Replies.{Reader, Holds};

    ghost Value = { Reader };

    ghost view = { λ a. record { kept = kept a.replies; ready = a.ready; error = a.error; taken = a.taken } };

    ghost invariant = { λ a. Holds a.replies a.ready a.error };
}

impl ReplyReader {
    /// Returns a reader without bytes. Does not allocate.
    pub fn new(alloc: Global) -> ReplyReader
        ensures idle { (result.ready ≡ None) × (result.error ≡ None) × (result.kept ≡ [])
            × (result.taken ≡ 0) }
        ensures begins { HasRead [] [] result }
    {
        ReplyReader {
            replies: Gatherer::new(alloc, Kind::Reply),
            ready: None,
            error: None,
            taken: 0,
        }
    }

    /// Takes bytes of `piece` up to the end of a reply, or all of them, and returns how many. Takes none while `next`
    /// has a reply to return.
    /// Returns `Bad` if no reply can begin with the bytes so far, and `Memory` if allocation fails. Every later call
    /// returns the same error.
    pub fn feed(&mut self, piece: &[u8]) -> Result<usize, ReplyError>
        requires { self.old.error ≡ None → self.old.taken + length piece.now < 2 ^ 64 }
        ensures error { MatchResult result (λ _. self.new.error ≡ None)
            (λ e. self.new.error ≡ Some e) }
        ensures stays { self.old.error ≢ None → self.new ≡ self.old }
        ensures waits { self.old.ready ≢ None → self.new ≡ self.old }
        ensures took { IfOk result
            (λ n. (n ≤ length piece.now) × (n < length piece.now → self.new.ready ≢ None)) }
        ensures moves { self.old.ready ≡ None → piece.now ≢ [] → IfOk result (λ n. 0 < n) }
        ensures alone { self.new.ready ≢ None → self.new.kept ≡ [] }
        ensures count { IfOk result (λ n. self.new.taken ≡ self.old.taken + n) }
        ensures read { (fed : List ℕ) (handed : List Reply) → HasRead fed handed self.old
            → HasRead (fed_with fed piece.now result) handed self.new }
    {
        if let Some(error) = &self.error {
            return Err(error.copy());
        }
        if self.ready.is_some() {
            return Ok(0);
        }
        match gather(&mut self.replies, self.taken, piece) {
            Ok((taken, ready)) => {
                put_reply(&mut self.ready, ready);
                self.taken += taken as u64;
                Ok(taken)
            }
            Err(error) => {
                self.replies.clear();
                put_error(&mut self.error, error.copy());
                Err(error)
            }
        }
    }

    /// Returns the complete reply, if there is one, and clears it. Its body is not copied.
    pub fn next(&mut self) -> Option<(u16, Bytes)>
        ensures result { result ≡ self.old.ready }
        ensures rest { self.new ≡ record self.old { ready = None } }
        ensures kept { IfSome result (λ _. self.new.kept ≡ []) }
        ensures read { (fed : List ℕ) (handed : List Reply) → HasRead fed handed self.old
            → HasRead fed (handed ++ option_to_list result) self.new }
    {
        self.ready.take()
    }

    /// Returns whether the bytes so far end between two replies.
    pub fn between(&self) -> bool
        ensures { IsTrue result ↔ ((self.now.kept ≡ []) × (self.now.error ≡ None)) }
    {
        self.replies.len() == 0 && self.error.is_none()
    }

    /// Returns how many bytes of an incomplete reply are buffered.
    pub fn held(&self) -> u64
        ensures kept { result ≡ length self.now.kept }
        ensures few { result ≤ 1073758216 }
    {
        self.replies.len() as u64
    }
}

// Takes bytes up to the end of a reply, or all of them. `taken` is how many bytes were taken before.
fn gather(
    replies: &mut Gatherer,
    taken: u64,
    piece: &[u8],
) -> Result<(usize, Option<(u16, Bytes)>), ReplyError>
    requires kind { replies.old.kind ≡ Kind.Reply }
    requires at { IsAt replies.old }
    requires partial { is_whole replies.old.phase ≡ false }
    requires count { taken + length piece.now < 2 ^ 64 }
    ensures kind { replies.new.kind ≡ Kind.Reply }
    ensures gathers { Gathers taken replies.old piece.now replies.new result }
{
    let before = replies.len();
    match replies.take(piece) {
        Ok(n) => Ok((n, whole_reply(replies))),
        Err(error) => {
            if is_memory(&error) {
                return Err(ReplyError::Memory);
            }
            Err(ReplyError::Bad {
                at: taken + (replies.refused_len() - before) as u64,
            })
        }
    }
}

fn is_memory(error: &HeadError) -> bool
    ensures { MatchBool result (error.now ≡ HeadError.Memory) (error.now ≢ HeadError.Memory) }
{
    matches!(error, HeadError::Memory)
}

// Returns the reply if it is complete, and empties the buffer.
fn whole_reply(replies: &mut Gatherer) -> Option<(u16, Bytes)>
    requires kind { replies.old.kind ≡ Kind.Reply }
    requires at { IsAt replies.old }
    ensures kind { replies.new.kind ≡ Kind.Reply }
    ensures gives { GivesReply replies.old replies.new result }
{
    let status = status_of(replies)?;
    Some((status, Bytes::from(replies.body())))
}

// Returns the status of a complete reply.
fn status_of(replies: &Gatherer) -> Option<u16>
    requires kind { replies.now.kind ≡ Kind.Reply }
    requires at { IsAt replies.now }
    ensures { MatchOption result (is_whole replies.now.phase ≡ false)
        (λ status. (is_whole replies.now.phase ≡ true) × ((h : ResponseHead) × IsReplyHead replies.now.message.head h × (status ≡ status_code h))) }
{
    let (head, _) = replies.message()?;
    let head = read_reply_head(head)?;
    Some(head.status)
}

fn put_reply(place: &mut Option<(u16, Bytes)>, reply: Option<(u16, Bytes)>)
    ensures { place.new ≡ reply }
{
    *place = reply;
}

fn put_error(place: &mut Option<ReplyError>, error: ReplyError)
    ensures { place.new ≡ Some error }
{
    *place = Some(error);
}

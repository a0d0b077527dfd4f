//! Reads one response off a connection.

ghost use Rattle.std.specs.Prelude.{◌≡◌, ◌≢◌, ◌≤◌, ◌<◌, ◌+◌, ◌^◌, ◌++◌, ℕ, List, [], Option, IfOk, IfErr, OnErr};
ghost use Rattle.mirror_client.specs.Exchanges.{Replied};
ghost use Rattle.mirror_client.specs.Points.{point, point_of};
ghost use Rattle.mirror_client.specs.Readers.{Advances, IsBegun, refused_by};
ghost use Rattle.mirror_client.specs.Stopping.{CountsErrors, CountsFault, NoReply};

use crate::incoming::Incoming;
use crate::refusal::FollowError;
use dmap_tags::Bytes;
use http_client::{ReplyError, ReplyReader};
use outside_net::Link;
use std::alloc::Global;

/// Returns the status and body of the peer's next response.
pub(crate) fn next_reply<K: Link>(
    alloc: Global,
    link: &mut K,
    incoming: &mut Incoming,
) -> Result<(u16, Bytes), FollowError>
    requires few { incoming.old.used < 2 ^ 63 }
    ensures replied { IfOk result (λ answer. Replied (point_of K.Link link.old incoming.old)
        (point_of K.Link link.new incoming.new) answer) }
    ensures cause { IfErr result (λ e. NoReply (point_of K.Link link.old incoming.old) e) }
    ensures grows { incoming.new.used ≤ incoming.old.used + 2 ^ 31 }
    ensures taken { K.taken link.new ≡ K.taken link.old }
    ensures count { CountsErrors K.Link link.old link.new result }
{
    let mut reader = ReplyReader::new(alloc);
    loop {
        let held = reader.held();
        match incoming.refill(link) {
            Ok(true) => {}
            Ok(false) => {
                return Err(FollowError::Ended {
                    at: incoming.used_count() + held,
                });
            }
            Err(error) => return Err(error),
        }
        match advance(&mut reader, incoming) {
            Ok(None) => {}
            Ok(Some(reply)) => return Ok(reply),
            Err(error) => return Err(error),
        }
    }
}

// Feeds the reader what was read ahead. Returns a response, if it is then complete.
fn advance(
    reader: &mut ReplyReader,
    incoming: &mut Incoming,
) -> Result<Option<(u16, Bytes)>, FollowError>
    requires begun { IsBegun reader.old }
    requires some { incoming.old.unused ≢ [] }
    requires few { incoming.old.used < 2 ^ 63 }
    ensures advances { IfOk result (λ reply.
        Advances reader.old reader.new incoming.old incoming.new reply) }
    ensures cause { IfErr result (λ e. (taken left : Option (List ℕ))
        → NoReply (point taken left (reader.old.kept ++ incoming.old.unused) incoming.old.used) e) }
    ensures used { OnErr result (incoming.new.used ≡ incoming.old.used) }
    ensures count { IfErr result (λ e. (faults : ℕ) → CountsFault faults faults e) }
{
    let held = reader.held();
    match reader.feed(incoming.unused_bytes()) {
        Ok(n) => {
            incoming.skip(n);
            match reader.next() {
                None => Ok(None),
                Some(reply) => {
                    incoming.count(held + n as u64);
                    Ok(Some(reply))
                }
            }
        }
        Err(error) => Err(error_after(incoming.used_count(), error)),
    }
}

// Returns the error for a malformed response after `used` bytes.
fn error_after(used: u64, error: ReplyError) -> FollowError
    requires { (at : ℕ) → error ≡ ReplyError.Bad at → used + at < 2 ^ 64 }
    ensures { result ≡ refused_by used error }
{
    match error {
        ReplyError::Bad { at } => FollowError::BadReply { at: used + at },
        ReplyError::Memory => FollowError::Memory,
    }
}

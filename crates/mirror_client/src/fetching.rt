//! Exchanges whose answer is a tag.

ghost use Rattle.std.specs.Prelude.{◌≡◌, ◌≢◌, ◌≤◌, ◌<◌, ◌+◌, ◌^◌, Option, option_copied, IfOk, IfErr, MatchBool, MatchOption, MatchResult};
ghost use Rattle.dmap_tags.specs.Tree.{trees_of};
ghost use Rattle.code_table.specs.Reply.{first_in, number_in};
ghost use Rattle.http_client.specs.Replies.{Reply};
ghost use Rattle.mirror_client.specs.Exchanges.{Exchanged};
ghost use Rattle.mirror_client.specs.Points.{point_of};
ghost use Rattle.mirror_client.specs.Stopping.{CountsErrors, Stops};
ghost use Rattle.mirror_client.specs.Tellings.{HasNoTag, IsTag, Tells, TellsNumber, UnexpectedNumber, UnexpectedTag, number_told};

use crate::exchanging::exchange;
use crate::incoming::Incoming;
use crate::refusal::FollowError;
use code_table::CodeTable;
use dmap_stream::{Limits, StreamError, read_tag};
use dmap_tags::{Bytes, Code, Tag, Value};
use outside_net::Link;
use std::alloc::{AllocError, Global};

// Most payload bytes of the tag of a body.
const BODY_LIMIT: u32 = 1_073_741_824;

/// Sends a request, and returns the tag of its success.
pub(crate) fn fetch<K: Link>(
    alloc: Global,
    link: &mut K,
    incoming: &mut Incoming,
    table: &CodeTable,
    request: &[u8],
) -> Result<Tag, FollowError>
    requires few { incoming.old.used < 2 ^ 63 }
    ensures told { IfOk result (λ tag. (answer : Reply) × Exchanged request.now
        (point_of K.Link link.old incoming.old) (point_of K.Link link.new incoming.new) answer
        × Tells table.now answer tag) }
    ensures stops { IfErr result (λ e. Stops request.now (UnexpectedTag table.now)
        (point_of K.Link link.old incoming.old) (K.taken link.new) e) }
    ensures grows { incoming.new.used ≤ incoming.old.used + 2 ^ 31 }
    ensures count { CountsErrors K.Link link.old link.new result }
{
    match exchange(alloc, link, incoming, request) {
        Ok((status, body)) => reply_tag(alloc, table, incoming.used_count(), status, &body),
        Err(error) => Err(error),
    }
}

/// Sends a request, and returns the number in the first member with `code` of its success.
pub(crate) fn fetch_number<K: Link>(
    alloc: Global,
    link: &mut K,
    incoming: &mut Incoming,
    table: &CodeTable,
    code: Code,
    request: &[u8],
) -> Result<u32, FollowError>
    requires few { incoming.old.used < 2 ^ 63 }
    ensures told { IfOk result (λ n. (answer : Reply) × Exchanged request.now
        (point_of K.Link link.old incoming.old) (point_of K.Link link.new incoming.new) answer
        × TellsNumber code table.now answer n) }
    ensures stops { IfErr result (λ e. Stops request.now (UnexpectedNumber code table.now)
        (point_of K.Link link.old incoming.old) (K.taken link.new) e) }
    ensures grows { incoming.new.used ≤ incoming.old.used + 2 ^ 31 }
    ensures count { CountsErrors K.Link link.old link.new result }
{
    match exchange(alloc, link, incoming, request) {
        Ok((status, body)) => reply_number(
            alloc,
            table,
            code,
            incoming.used_count(),
            status,
            &body,
        ),
        Err(error) => Err(error),
    }
}

/// Returns the tag of an answer that ends at byte `used`.
fn reply_tag(
    alloc: Global,
    table: &CodeTable,
    used: u64,
    status: u16,
    body: &Bytes,
) -> Result<Tag, FollowError>
    ensures { MatchResult result (λ tag. Tells table.now (status, body.now) tag)
        (λ e. UnexpectedTag table.now used (status, body.now) e) }
{
    if status != 200 {
        return Err(FollowError::Refused { status });
    }
    match whole_tag(alloc, table, body) {
        Ok(Some(tag)) => Ok(tag),
        Ok(None) => Err(FollowError::BadReply { at: used }),
        Err(AllocError) => Err(FollowError::Memory),
    }
}

/// Returns the number in an answer that ends at byte `used`.
pub(crate) fn reply_number(
    alloc: Global,
    table: &CodeTable,
    code: Code,
    used: u64,
    status: u16,
    body: &Bytes,
) -> Result<u32, FollowError>
    ensures { MatchResult result (λ n. TellsNumber code table.now (status, body.now) n)
        (λ e. UnexpectedNumber code table.now used (status, body.now) e) }
{
    match reply_tag(alloc, table, used, status, body) {
        Ok(tag) => match number_in(code, &tag) {
            Some(n) => Ok(n),
            None => Err(FollowError::BadReply { at: used }),
        },
        Err(error) => Err(error),
    }
}

// Returns the tag that the body is, if it is exactly one.
fn whole_tag(alloc: Global, table: &CodeTable, body: &Bytes) -> Result<Option<Tag>, AllocError>
    ensures { IfOk result (λ found.
        MatchOption found (HasNoTag table.now body.now) (λ tag. IsTag table.now body.now tag)) }
{
    let bytes = body.as_slice();
    match read_tag(alloc, bytes, table, Limits { top: BODY_LIMIT }) {
        Ok((tag, len)) => Ok(sole_tag(tag, len, bytes.len())),
        Err(error) => {
            if is_memory(&error) {
                Err(AllocError)
            } else {
                Ok(None)
            }
        }
    }
}

// Returns the tag if it takes all of the bytes.
fn sole_tag(tag: Tag, len: usize, total: usize) -> Option<Tag>
    ensures { MatchOption result (len ≢ total) (λ t. (t ≡ tag) × (len ≡ total)) }
{
    if len == total { Some(tag) } else { None }
}

fn is_memory(error: &StreamError) -> bool
    ensures { MatchBool result (error.now ≡ StreamError.Memory) (error.now ≢ StreamError.Memory) }
{
    matches!(error, StreamError::Memory)
}

// Returns the number in the first member with the code.
fn number_in(code: Code, tag: &Tag) -> Option<u32>
    ensures { result ≡ number_told code tag.now }
{
    match &tag.value {
        Value::List(members) => number_of(first_in(members.as_slice(), code)),
        _ => None,
    }
}

fn first_in(tags: &[Tag], code: Code) -> Option<&Tag>
    ensures { option_copied result ≡ first_in code (trees_of tags.now) }
{
    for tag in tags {
        if tag.code == code {
            return Some(tag);
        }
    }
    None
}

fn number_of(tag: Option<&Tag>) -> Option<u32>
    ensures { result ≡ number_in (option_copied tag.entry) }
{
    match &tag?.value {
        Value::U32(n) => Some(*n),
        _ => None,
    }
}

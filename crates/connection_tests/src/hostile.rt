//! What a hostile peer may send, and how each connection ends: by a refusal at its offset, by the end of its input, or
//! served like any other. The expected ends follow the protocol's rules for requests.

ghost use Rattle.std.specs.Prelude.{◌<◌};

mod inputs;

use crate::connections::serve_new;
use crate::hostile::inputs::{CONNECTIONS, Coming, NO_REQUESTS, ODD_REQUESTS};
use outside_net::{MemLink, MemSink, MemSource};
use share_asks::Role;
use share_server::{LinkEnd, LinkReport};
use std::alloc::{AllocError, Global};
use std::sync::Wait;
use std::test::Fail;
use std::time::Clock;

/// A connection: what comes over it, in chunks of `piece` bytes.
#[derive(Drop)]
struct Visit<'a> {
    role: Role,
    input: &'a [u8],
    piece: usize,
}

fn joined(alloc: Global, coming: &Coming) -> Result<Vec<u8>, AllocError> {
    let (front, again, times, back) = coming;
    let mut input = Vec::from_slice(alloc, front)?;
    for _ in 0..*times {
        input.extend_from_slice(again)?;
    }
    input.extend_from_slice(back)?;
    Ok(input)
}

fn link(alloc: Global, visit: &Visit<'_>) -> Result<MemLink, AllocError>
    requires { 0 < visit.now.piece }
{
    let source = MemSource::new(alloc, visit.input, visit.piece, &[])?;
    let sink = MemSink::new(alloc, 4_194_304, 4_096, &[])?;
    Ok(MemLink::new(source, sink))
}

/// Serves a connection of a new share. Returns its report and what it took.
fn visited<R: Wait + Clock>(
    rt: &R,
    alloc: Global,
    visit: &Visit<'_>,
) -> Result<(LinkReport, MemLink), AllocError>
    requires { 0 < visit.now.piece }
{
    let mut link = link(alloc, visit)?;
    let report = serve_new(rt, alloc, &mut link, visit.role, 65_536)?;
    Ok((report, link))
}

/// The heads that end a connection whose bytes were refused.
const BAD_REQUEST: &[u8] =
    b"HTTP/1.1 400 Bad Request\r\nContent-Length: 0\r\nConnection: close\r\n\r\n";

const TOO_LARGE: &[u8] =
    b"HTTP/1.1 413 Content Too Large\r\nContent-Length: 0\r\nConnection: close\r\n\r\n";

const FIELDS_TOO_LARGE: &[u8] =
    b"HTTP/1.1 431 Request Header Fields Too Large\r\nContent-Length: 0\r\nConnection: close\r\n\r\n";

fn refusal(status: u16) -> &'static [u8] {
    match status {
        400 => BAD_REQUEST,
        413 => TOO_LARGE,
        _ => FIELDS_TOO_LARGE,
    }
}

/// Returns what is written after the replies, by how the connection ended.
fn last_words(end: LinkEnd) -> &'static [u8] {
    match end {
        LinkEnd::Refused { status } => refusal(status),
        _ => b"",
    }
}

/// Returns whether a connection ended by `end`, after `count` requests.
fn is_ended(report: &LinkReport, count: usize, end: LinkEnd) -> bool {
    report.end == end && report.served.as_slice().len() == count
}

/// Returns whether what a connection took ends with the head of a refusal, if it ended by one.
fn has_last_words(link: &MemLink, end: LinkEnd) -> bool {
    link.taken().ends_with(last_words(end))
}

/// Returns whether a connection ends by `end`, after `count` requests, and with the head of a refusal if `end` is one.
fn ends<R: Wait + Clock>(
    rt: &R,
    alloc: Global,
    visit: &Visit<'_>,
    count: usize,
    end: LinkEnd,
) -> Result<bool, AllocError>
    requires { 0 < visit.now.piece }
{
    let (report, link) = visited(rt, alloc, visit)?;
    Ok(is_ended(&report, count, end) && has_last_words(&link, end))
}

/// Returns whether the bytes are refused with `status`, as a whole and byte by byte.
fn refuses<R: Wait + Clock>(
    rt: &R,
    alloc: Global,
    input: &[u8],
    status: u16,
) -> Result<bool, AllocError> {
    let end = LinkEnd::Refused { status };
    let whole = Visit {
        role: Role::Listen,
        input,
        piece: 4_096,
    };
    let by_bytes = Visit {
        role: Role::Listen,
        input,
        piece: 1,
    };
    Ok(ends(rt, alloc, &whole, 0, end)? && ends(rt, alloc, &by_bytes, 0, end)?)
}

fn are_refused<R: Wait + Clock>(
    rt: &R,
    alloc: Global,
    rows: &[(&'static [u8], u16)],
) -> Result<bool, AllocError> {
    for (input, status) in rows {
        if !refuses(rt, alloc, input, *status)? {
            return Ok(false);
        }
    }
    Ok(true)
}

#[test]
fn what_is_no_request_is_refused(rt: HostRuntime) -> Result<(), Fail> {
    assert!(rt; are_refused(&rt, rt.alloc(), &NO_REQUESTS)?);
    Ok(())
}

/// Returns whether an editor's connection ends by `end`, after `count` requests.
fn editor_ends<R: Wait + Clock>(
    rt: &R,
    alloc: Global,
    coming: &Coming,
    count: usize,
    end: LinkEnd,
) -> Result<bool, AllocError> {
    let input = joined(alloc, coming)?;
    let editor = Visit {
        role: Role::Edit,
        input: input.as_slice(),
        piece: 4_096,
    };
    ends(rt, alloc, &editor, count, end)
}

fn editors_end<R: Wait + Clock>(
    rt: &R,
    alloc: Global,
    rows: &[(Coming, usize, LinkEnd)],
) -> Result<bool, AllocError> {
    for (coming, count, end) in rows {
        if !editor_ends(rt, alloc, coming, *count, *end)? {
            return Ok(false);
        }
    }
    Ok(true)
}

#[test]
fn each_connection_ends(rt: HostRuntime) -> Result<(), Fail> {
    assert!(rt; editors_end(&rt, rt.alloc(), &CONNECTIONS)?);
    Ok(())
}

/// Returns whether the requests that were served have the statuses of the rows.
fn have_statuses(report: &LinkReport, rows: &[(&'static [u8], u16)]) -> bool {
    let served = report.served.as_slice();
    report.end == LinkEnd::Closed
        && served
            .iter()
            .map(|s| s.status)
            .eq(rows.iter().map(|row| row.1))
}

/// Returns whether the requests of the rows, one after another in chunks of `piece` bytes, have their statuses.
fn have_their_status<R: Wait + Clock>(
    rt: &R,
    alloc: Global,
    rows: &[(&'static [u8], u16)],
    piece: usize,
) -> Result<bool, AllocError>
    requires { 0 < piece }
{
    let mut input = Vec::new(alloc);
    for (request, _) in rows {
        input.extend_from_slice(request)?;
    }
    let player = Visit {
        role: Role::Listen,
        input: input.as_slice(),
        piece,
    };
    let (report, _) = visited(rt, alloc, &player)?;
    Ok(have_statuses(&report, rows))
}

#[test]
fn odd_requests_have_their_status(rt: HostRuntime) -> Result<(), Fail> {
    assert!(rt; have_their_status(&rt, rt.alloc(), &ODD_REQUESTS, 4_096)?);
    assert!(rt; have_their_status(&rt, rt.alloc(), &ODD_REQUESTS, 1)?);
    Ok(())
}

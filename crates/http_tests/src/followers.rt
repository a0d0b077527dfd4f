//! `mirror_client`: followers over connections in memory, whose peers send known bytes.

ghost use Rattle.std.specs.Prelude.{◌<◌};
ghost use Rattle.share_asks.specs.Valid.{MayAsk};

use item_model::{Meta, Target};
use mirror_client::follow_link;
use mirror_core::{Applied, Mirror};
use outside_net::{MemLink, MemSink, MemSource};
use std::alloc::{AllocError, Global};
use std::process::Abort;
use std::test::Fail;

// A table with the codes that are needed here.
const CODES: &[u8] =
    b"mccr\0\0\x03\x05mstt\0\0\0\x04\0\0\0\xc8mdcl\0\0\00mcnm\0\0\0\x04mlogmcna\0\0\0\x12dmap.loginresponsemcty\0\0\0\x02\0\x0cmdcl\0\0\0,mcnm\0\0\0\x04mlidmcna\0\0\0\x0edmap.sessionidmcty\0\0\0\x02\0\x05mdcl\0\0\0)mcnm\0\0\0\x04msttmcna\0\0\0\x0bdmap.statusmcty\0\0\0\x02\0\x05mdcl\0\0\01mcnm\0\0\0\x04mupdmcna\0\0\0\x13dmap.updateresponsemcty\0\0\0\x02\0\x0cmdcl\0\0\01mcnm\0\0\0\x04musrmcna\0\0\0\x13dmap.serverrevisionmcty\0\0\0\x02\0\x05mdcl\0\0\0-mcnm\0\0\0\x04mutymcna\0\0\0\x0fdmap.updatetypemcty\0\0\0\x02\0\x01mdcl\0\0\06mcnm\0\0\0\x04mtcomcna\0\0\0\x18dmap.specifiedtotalcountmcty\0\0\0\x02\0\x05mdcl\0\0\00mcnm\0\0\0\x04mrcomcna\0\0\0\x12dmap.returnedcountmcty\0\0\0\x02\0\x05mdcl\0\0\0*mcnm\0\0\0\x04mlclmcna\0\0\0\x0cdmap.listingmcty\0\0\0\x02\0\x0cmdcl\0\0\0.mcnm\0\0\0\x04mlitmcna\0\0\0\x10dmap.listingitemmcty\0\0\0\x02\0\x0cmdcl\0\0\03mcnm\0\0\0\x04mudlmcna\0\0\0\x15dmap.deletedidlistingmcty\0\0\0\x02\0\x0cmdcl\0\0\0)mcnm\0\0\0\x04miidmcna\0\0\0\x0bdmap.itemidmcty\0\0\0\x02\0\x05mdcl\0\0\0+mcnm\0\0\0\x04minmmcna\0\0\0\x0ddmap.itemnamemcty\0\0\0\x02\0\x09mdcl\0\0\00mcnm\0\0\0\x04adbsmcna\0\0\0\x12daap.databasesongsmcty\0\0\0\x02\0\x0c";

pub(crate) const LOGIN: &[u8] = b"mlog\0\0\0\x18mstt\0\0\0\x04\0\0\0\xc8mlid\0\0\0\x04\0\0\0\x01";

// The item with id 7 at revision 3, and its drop in revision 4.
const FULL: &[u8] =
    b"adbs\0\0\0^mstt\0\0\0\x04\0\0\0\xc8muty\0\0\0\x01\0musr\0\0\0\x04\0\0\0\x03mtco\0\0\0\x04\0\0\0\x01mrco\0\0\0\x04\0\0\0\x01mlcl\0\0\0\x1dmlit\0\0\0\x15miid\0\0\0\x04\0\0\0\x07minm\0\0\0\x01A";

pub(crate) const UPDATE: &[u8] = b"mupd\0\0\0\x18mstt\0\0\0\x04\0\0\0\xc8musr\0\0\0\x04\0\0\0\x04";

const DELTA: &[u8] =
    b"adbs\0\0\0Umstt\0\0\0\x04\0\0\0\xc8muty\0\0\0\x01\x01musr\0\0\0\x04\0\0\0\x04mtco\0\0\0\x04\0\0\0\0mrco\0\0\0\x04\0\0\0\0mlcl\0\0\0\0mudl\0\0\0\x0cmiid\0\0\0\x04\0\0\0\x07";

// A full listing of revision 2, and one without a revision.
const OLDER: &[u8] =
    b"adbs\0\0\0Amstt\0\0\0\x04\0\0\0\xc8muty\0\0\0\x01\0musr\0\0\0\x04\0\0\0\x02mtco\0\0\0\x04\0\0\0\0mrco\0\0\0\x04\0\0\0\0mlcl\0\0\0\0";

const NO_REVISION: &[u8] =
    b"adbs\0\0\05mstt\0\0\0\x04\0\0\0\xc8muty\0\0\0\x01\0mtco\0\0\0\x04\0\0\0\0mrco\0\0\0\x04\0\0\0\0mlcl\0\0\0\0";

pub(crate) const NO_CONTENT: &str = "HTTP/1.1 204 No Content\r\n\r\n";

/// Bodies that a peer sends.
type Bodies = &'static [&'static [u8]];

const TWO_ROUNDS: Bodies = &[CODES, LOGIN, FULL, UPDATE, DELTA];

const ONE_ROUND: Bodies = &[CODES, LOGIN, FULL];

/// Appends a reply with a status and a body.
pub(crate) fn reply(
    alloc: Global,
    replies: &mut Vec<u8>,
    status: &str,
    body: &[u8],
) -> Result<(), AllocError> {
    let len = body.len();
    let head = format!(in alloc; "HTTP/1.1 {status}\r\nContent-Length: {len}\r\n\r\n")?;
    replies.extend_from_slice(head.as_bytes())?;
    replies.extend_from_slice(body)
}

/// Returns replies with these bodies, each with status 200.
fn replies(alloc: Global, bodies: &[&'static [u8]]) -> Result<Vec<u8>, AllocError> {
    let mut bytes = Vec::new(alloc);
    for body in bodies {
        reply(alloc, &mut bytes, "200 OK", body)?;
    }
    Ok(bytes)
}

/// Returns the replies to two rounds, and then the reply to a logout.
fn two_rounds(alloc: Global) -> Result<Vec<u8>, AllocError> {
    let mut bytes = replies(alloc, TWO_ROUNDS)?;
    bytes.extend_from_slice(NO_CONTENT.as_bytes())?;
    Ok(bytes)
}

pub(crate) fn link(
    alloc: Global,
    input: &[u8],
    per_call: usize,
    failing: &[u64],
) -> Result<MemLink, AllocError>
    requires { 0 < per_call }
{
    let input = MemSource::new(alloc, input, per_call, failing)?;
    let output = MemSink::new(alloc, 4096, 50, &[])?;
    Ok(MemLink::new(input, output))
}

/// Returns a line for each round.
fn lines(alloc: Global, applied: &[Applied]) -> Result<String, AllocError> {
    let mut text = String::new(alloc);
    for done in applied {
        let kind = if done.delta { "delta" } else { "full" };
        let line = format!(in alloc;
            "revision {} {} put {} drop {} rows {};",
            done.revision, kind, done.put, done.dropped, done.rows
        )?;
        text.push_str(line.as_str())?;
    }
    Ok(text)
}

/// Follows for two rounds. Returns how it ended, and the revision and the number of rows of the mirror.
fn told_by(alloc: Global, link: &mut MemLink, mirror: &mut Mirror) -> Result<String, AllocError>
    requires { MayAsk mirror.old.query }
{
    let end = ended(alloc, link, mirror)?;
    format!(in alloc; "{end}{}/{}", mirror.base(), mirror.len())
}

fn ended(alloc: Global, link: &mut MemLink, mirror: &mut Mirror) -> Result<String, AllocError>
    requires { MayAsk mirror.old.query }
{
    match follow_link(alloc, link, "here", mirror, 2) {
        Ok(applied) => lines(alloc, applied.as_slice()),
        Err(error) => format!(in alloc; "{error:?} "),
    }
}

fn told(alloc: Global, link: &mut MemLink) -> Result<String, AllocError> {
    let mut mirror = Mirror::new(alloc, Target::Items, None, Meta::Default);
    told_by(alloc, link, &mut mirror)
}

fn follow(
    alloc: Global,
    input: &[u8],
    per_call: usize,
    failing: &[u64],
) -> Result<String, AllocError>
    requires { 0 < per_call }
{
    let mut link = link(alloc, input, per_call, failing)?;
    told(alloc, &mut link)
}

const WRITTEN: &str =
    "GET /content-codes HTTP/1.1\r\nHost: here\r\nClient-DAAP-Version: 3.0\r\n\r\nGET /login HTTP/1.1\r\nHost: here\r\nClient-DAAP-Version: 3.0\r\n\r\nGET /databases/1/items?session-id=1 HTTP/1.1\r\nHost: here\r\nClient-DAAP-Version: 3.0\r\n\r\nGET /update?session-id=1&revision-number=3 HTTP/1.1\r\nHost: here\r\nClient-DAAP-Version: 3.0\r\n\r\nGET /databases/1/items?session-id=1&delta=3 HTTP/1.1\r\nHost: here\r\nClient-DAAP-Version: 3.0\r\n\r\nGET /logout?session-id=1 HTTP/1.1\r\nHost: here\r\nClient-DAAP-Version: 3.0\r\n\r\n";

#[test]
fn two_rounds_are_followed(rt: HostRuntime) -> Result<(), Fail> {
    let alloc = rt.alloc();
    let input = two_rounds(alloc)?;
    let mut link = link(alloc, input.as_slice(), 100, &[])?;
    let text = told(alloc, &mut link)?;
    assert_eq!(rt;
        text.as_str(),
        "revision 3 full put 1 drop 0 rows 1;revision 4 delta put 0 drop 1 rows 0;4/0"
    );
    assert!(rt; link.taken() == WRITTEN.as_bytes());
    Ok(())
}

/// The lengths of the replies up to the first listing and up to the second.
#[derive(Clone, Copy)]
struct Listings {
    first: usize,
    second: usize,
}

fn listing_lengths(alloc: Global) -> Result<Listings, AllocError> {
    Ok(Listings {
        first: replies(alloc, ONE_ROUND)?.len(),
        second: replies(alloc, TWO_ROUNDS)?.len(),
    })
}

/// Returns the revision and the number of rows of a mirror after `at` bytes of the replies to two rounds.
fn held(at: usize, listings: Listings) -> &'static str {
    if at < listings.first {
        "0/0"
    } else if at < listings.second {
        "3/1"
    } else {
        "4/0"
    }
}

fn ends_at(alloc: Global, input: &[u8], at: usize) -> Result<String, AllocError> {
    match input.get(..at) {
        Some(front) => follow(alloc, front, 4096, &[]),
        None => Err(AllocError),
    }
}

#[test]
fn a_peer_may_end_at_every_byte(rt: HostRuntime) -> Result<(), Fail> {
    let alloc = rt.alloc();
    let input = two_rounds(alloc)?;
    let listings = listing_lengths(alloc)?;
    for at in 0..input.len() {
        let held = held(at, listings);
        let expected = format!(in alloc; "Ended {{ at: {at} }} {held}")?;
        let text = ends_at(alloc, input.as_slice(), at)?;
        assert_eq!(rt; text.as_str(), expected.as_str());
    }
    Ok(())
}

#[test]
fn each_read_may_fail(rt: HostRuntime) -> Result<(), Fail> {
    let alloc = rt.alloc();
    let input = two_rounds(alloc)?;
    let listings = listing_lengths(alloc)?;
    for call in 0..input.len() / 50 {
        let held = held(call * 50, listings);
        let expected = format!(in alloc; "LinkFault {held}")?;
        let text = follow(alloc, input.as_slice(), 50, &[call as u64 + 1])?;
        assert_eq!(rt; text.as_str(), expected.as_str());
    }
    Ok(())
}

/// Follows a peer that sends `bodies` with 200, then `body` with `status`, and then nothing.
fn ends(
    alloc: Global,
    bodies: &[&'static [u8]],
    status: &str,
    body: &[u8],
) -> Result<String, AllocError> {
    let mut input = replies(alloc, bodies)?;
    reply(alloc, &mut input, status, body)?;
    follow(alloc, input.as_slice(), 4096, &[])
}

/// Bodies with 200, the status and the body of the last reply, and how the follower ends.
type End = (Bodies, &'static str, &'static [u8], &'static str);

fn all_end(rt: &impl Abort, alloc: Global, rows: &[End]) -> Result<(), Fail> {
    for (bodies, status, body, end) in rows {
        assert_eq!(rt; ends(alloc, bodies, status, body)?.as_str(), *end);
    }
    Ok(())
}

const ENDS: [End; 10] = [
    (
        &[],
        "503 Service Unavailable",
        b"",
        "Refused { status: 503 } 0/0",
    ),
    (
        &[CODES, LOGIN],
        "403 Forbidden",
        b"",
        "Refused { status: 403 } 0/0",
    ),
    (
        ONE_ROUND,
        "403 Forbidden",
        b"",
        "Refused { status: 403 } 3/1",
    ),
    (TWO_ROUNDS, "200 OK", b"", "Refused { status: 200 } 4/0"),
    (&[], "200 OK", LOGIN, "Codes(NotReply) 0/0"),
    (
        &[],
        "200 OK",
        b"mccr\0\0\0\x08mdcl\0\0\0\0",
        "Codes(Entry { index: 0 }) 0/0",
    ),
    (&[], "200 OK", b"mccr\0\0\0\0m", "BadReply { at: 47 } 0/0"),
    (
        &[CODES, LOGIN],
        "200 OK",
        NO_REVISION,
        "Listing(NotListing { index: Some(2) }) 0/0",
    ),
    (
        &[CODES, LOGIN, FULL, UPDATE],
        "200 OK",
        OLDER,
        "Listing(Backwards { held: 3, told: 2 }) 3/1",
    ),
    (&[CODES], "200 OK", UPDATE, "BadReply { at: 892 } 0/0"),
];

#[test]
fn other_answers_end_it(rt: HostRuntime) -> Result<(), Fail> {
    all_end(&rt, rt.alloc(), &ENDS)
}

//! `http_client`: requests with their texts.

ghost use Rattle.std.specs.Prelude.{IfSome};
ghost use Rattle.share_asks.specs.Valid.{MayAsk};
ghost use Rattle.http_client.specs.Requests.{CanSend};

use dmap_tags::Bytes;
use http_client::request;
use item_model::{Look, Meta, Query, Range, Target};
use share_asks::{Ask, Role, Want};
use std::alloc::{AllocError, Global};
use std::process::Abort;
use std::test::Fail;

/// An operation without a query.
#[derive(Clone, Copy)]
enum Asked {
    Login,
    Stop,
    Logout(u32),
}

fn plain_want(asked: Asked) -> Want
    ensures { CanSend result }
{
    match asked {
        Asked::Login => Want::Login,
        Asked::Stop => Want::Stop,
        Asked::Logout(session) => Want::Logout { session },
    }
}

/// Returns the query in a text, if it is one.
fn query_of(alloc: Global, text: &str) -> Option<Query>
    ensures { MayAsk result }
{
    match song_query::read(alloc, text) {
        Ok(query) => Some(query),
        Err(_) => None,
    }
}

/// Returns the operation that lists rows with a query, without one if its text is empty.
fn rows(
    alloc: Global,
    query: &str,
    meta: &str,
    target: Target,
    base: u32,
    range: Range,
) -> Option<Want>
    ensures { IfSome result (λ want. CanSend want) }
{
    let Ok(meta) = Meta::read(alloc, meta) else {
        return None;
    };
    let look = Look {
        query: query_of(alloc, query),
        meta,
        base,
        range,
    };
    Some(Want::Rows {
        session: 1,
        target,
        look,
    })
}

fn written(alloc: Global, want: Want) -> Result<Bytes, AllocError>
    requires { CanSend want }
{
    let ask = Ask {
        role: Role::Edit,
        close: false,
        want,
    };
    request(alloc, &ask, "h:1")
}

/// Returns whether these bytes are written for an operation.
fn writes(alloc: Global, want: Want, line: &str, behind: &str) -> Result<bool, AllocError>
    requires { CanSend want }
{
    let bytes = written(alloc, want)?;
    let text = format!(in alloc;
        "{line} HTTP/1.1\r\nHost: h:1\r\nClient-DAAP-Version: 3.0\r\n{behind}"
    )?;
    Ok(bytes.as_slice() == text.as_bytes())
}

fn writes_some(
    alloc: Global,
    want: Option<Want>,
    line: &str,
    behind: &str,
) -> Result<bool, AllocError>
    requires { IfSome want (λ w. CanSend w) }
{
    match want {
        Some(want) => writes(alloc, want, line, behind),
        None => Ok(false),
    }
}

const WRITTEN: [(Asked, &str, &str); 3] = [
    (Asked::Login, "GET /login", "\r\n"),
    (Asked::Logout(0), "GET /logout?session-id=0", "\r\n"),
    (Asked::Stop, "POST /stop", "Content-Length: 0\r\n\r\n"),
];

fn write_plain(
    rt: &impl Abort,
    alloc: Global,
    rows: &[(Asked, &'static str, &'static str)],
) -> Result<(), Fail> {
    for (asked, line, behind) in rows {
        assert!(rt; writes(alloc, plain_want(*asked), line, behind)?);
    }
    Ok(())
}

#[test]
fn requests_are_written_so(rt: HostRuntime) -> Result<(), Fail> {
    let alloc = rt.alloc();
    write_plain(&rt, alloc, &WRITTEN)?;
    let whole = rows(alloc, "", "", Target::Items, 0, Range::All);
    let line = "GET /databases/1/items?session-id=1";
    assert!(rt; writes_some(alloc, whole, line, "\r\n")?);
    let range = Range::Span { from: 0, to: 9 };
    let meta = "dmap.itemname,daap.songartist";
    let list = Target::Container(4);
    let part = rows(alloc, "'dmap.itemname:*a b*'", meta, list, 5, range);
    let line =
        "GET /databases/1/containers/4/items?session-id=1&delta=5&meta=dmap.itemname%2Cdaap.songartist&query=%27dmap.itemname%3A*a+b*%27&index=0-9";
    assert!(rt; writes_some(alloc, part, line, "\r\n")?);
    Ok(())
}

//! `http_heads`: bytes and the messages, or the refusals, that they are known to be.

ghost use Rattle.std.specs.Prelude.{◌<◌};

use http_heads::{Gatherer, HeadError, Kind, laws};
use std::alloc::{AllocError, Global};
use std::process::Abort;
use std::test::Fail;

/// Returns the lengths of the head and the body of the first message in bytes, which come in chunks of `size`.
fn first_message(
    alloc: Global,
    kind: Kind,
    bytes: &[u8],
    size: usize,
) -> Result<Option<(usize, usize)>, HeadError>
    requires { 0 < size }
{
    let mut gatherer = Gatherer::new(alloc, kind);
    for piece in bytes.chunks(size) {
        gatherer.take(piece)?;
        if let Some((head, body)) = gatherer.message() {
            return Ok(Some((head.len(), body.len())));
        }
    }
    Ok(None)
}

fn shown(alloc: Global, kind: Kind, text: &str, size: usize) -> Result<String, AllocError> {
    if size == 0 {
        return Err(AllocError);
    }
    let message = first_message(alloc, kind, text.as_bytes(), size);
    format!(in alloc; "{message:?}")
}

/// Sizes of chunks.
const SIZES: [usize; 5] = [1, 2, 3, 7, 1_000];

fn come_as(
    rt: &impl Abort,
    alloc: Global,
    kind: Kind,
    rows: &[(&'static str, &'static str)],
    sizes: &[usize],
) -> Result<(), Fail> {
    for (text, message) in rows {
        for size in sizes {
            assert_eq!(rt;
                shown(alloc, kind, text, *size)?.as_str(),
                *message,
                "in {size}"
            );
        }
    }
    Ok(())
}

const REQUESTS: [(&str, &str); 8] = [
    ("GET / HTTP/1.1\r\n\r", "Ok(None)"),
    ("\r\n\nGET / HTTP/1.0\nA:b\n\n", "Ok(Some((23, 0)))"),
    (
        "POST / HTTP/1.1\nContent-Length:3\n\nabcd",
        "Ok(Some((34, 3)))",
    ),
    ("POST / HTTP/1.1\nCONTENT-length: 03 \n\nab", "Ok(None)"),
    ("GET /\r\n\r\n", "Err(Head)"),
    ("GET / HTTP/1.1\r\nA: b\rc\r\n\r\n", "Err(Head)"),
    ("GET / HTTP/1.1\nContent-Length: -1\n\n", "Err(Length)"),
    (
        "GET / HTTP/1.1\nContent-Length: 4194305\n\n",
        "Err(BodyTooLarge)",
    ),
];

const REPLIES: [(&str, &str); 3] = [
    (
        "HTTP/1.1 200 OK\nContent-Length: 2\n\nabc",
        "Ok(Some((35, 2)))",
    ),
    ("HTTP/1.1 200 OK\nContent-Length: 2\n\na", "Ok(None)"),
    ("HTTP/1.1 200 OK\r\n\r\n", "Err(Head)"),
];

#[test]
fn messages_come_whole_or_are_refused(rt: HostRuntime) -> Result<(), Fail> {
    come_as(&rt, rt.alloc(), Kind::Request, &REQUESTS, &SIZES)?;
    come_as(&rt, rt.alloc(), Kind::Reply, &REPLIES, &SIZES)
}

#[test]
fn laws_can_be_cited() {
    laws::frames_are_prefix_free();
    laws::splits_are_one();
    laws::refused_fronts_are_one();
    laws::refusals_stay();
    laws::refused_is_no_message();
    laws::all_bytes_split();
}

//! `http_client`: bytes and the replies that they are known to be.

ghost use Rattle.std.specs.Prelude.{◌≡◌, ◌≤◌, ◌<◌, ◌+◌, ◌^◌, length, None, true, IfOk};

use http_client::ReplyReader;
use std::alloc::{AllocError, Global};
use std::process::Abort;
use std::test::Fail;

/// Feeds all of `piece`, and appends the replies and a final error to the text.
fn feed(
    alloc: Global,
    reader: &mut ReplyReader,
    piece: &[u8],
    told: &mut String,
) -> Result<bool, AllocError>
    requires ready { reader.old.ready ≡ None }
    requires few { reader.old.taken + length piece.now < 2 ^ 64 }
    ensures { IfOk result (λ goes_on. goes_on ≡ true → (reader.new.ready ≡ None)
        × (reader.new.taken ≡ reader.old.taken + length piece.now)) }
{
    let mut rest = piece;
    while !rest.is_empty() {
        match reader.feed(rest) {
            Ok(taken) => {
                let (_, behind) = rest.split_at(taken);
                rest = behind;
            }
            Err(error) => {
                told.push_str(format!(in alloc; "{error:?}")?.as_str())?;
                return Ok(false);
            }
        }
        if let Some((status, body)) = reader.next() {
            let len = body.as_slice().len();
            told.push_str(format!(in alloc; "{status} {len};")?.as_str())?;
        }
    }
    Ok(true)
}

/// Returns the statuses and the lengths of the bodies of replies in two chunks, split at `at`.
fn read(alloc: Global, bytes: &[u8], at: usize) -> Result<String, AllocError>
    requires within { at ≤ length bytes.now }
    requires few { length bytes.now < 2 ^ 32 }
{
    let mut reader = ReplyReader::new(alloc);
    let mut told = String::new(alloc);
    let (front, back) = bytes.split_at(at);
    if !feed(alloc, &mut reader, front, &mut told)? || !feed(alloc, &mut reader, back, &mut told)? {
        return Ok(told);
    }
    if !reader.between() {
        told.push_str("..")?;
    }
    Ok(told)
}

/// Compares the replies in bytes, split at every position.
fn are_read(
    rt: &impl Abort,
    alloc: Global,
    rows: &[(&'static str, &'static str)],
) -> Result<(), Fail> {
    for (text, told) in rows {
        let bytes = text.as_bytes();
        if bytes.len() > 1_000 {
            return Err(AllocError.into());
        }
        for at in 0..bytes.len() + 1 {
            assert_eq!(rt; read(alloc, bytes, at)?.as_str(), *told, "at {at}");
        }
    }
    Ok(())
}

/// Feeds bytes once. Returns how many were taken, and how many are buffered then.
fn taken_and_held(alloc: Global, bytes: &[u8]) -> Option<(usize, u64)>
    requires { length bytes.now < 2 ^ 32 }
{
    let mut reader = ReplyReader::new(alloc);
    let taken = reader.feed(bytes).ok()?;
    Some((taken, reader.held()))
}

fn are_held(
    rt: &impl Abort,
    alloc: Global,
    rows: &[(&'static str, usize, u64)],
) -> Result<(), Fail> {
    for (text, taken, held) in rows {
        let bytes = text.as_bytes();
        if bytes.len() > 1_000 {
            return Err(AllocError.into());
        }
        assert!(rt;
            taken_and_held(alloc, bytes) == Some((*taken, *held)),
            "{text}"
        );
    }
    Ok(())
}

/// Bytes that are fed at once, how many of them are taken, and how many are buffered then. Nothing is taken of a reply
/// that begins after a complete one.
const HELD: [(&str, usize, u64); 3] = [
    ("HTTP/1.1 204 No Content\r\n", 25, 25),
    ("HTTP/1.1 204 No Content\r\n\r\nHTTP/1.1 204", 27, 0),
    (
        "HTTP/1.1 200 OK\r\nContent-Length: 3\r\n\r\nabcHTTP/1.1 204 No Content\r\n\r\n",
        41,
        0,
    ),
];

#[test]
fn no_later_reply_is_begun_beside_one_that_waits(rt: HostRuntime) -> Result<(), Fail> {
    are_held(&rt, rt.alloc(), &HELD)
}

const REPLIES: [(&str, &str); 6] = [
    (
        "HTTP/1.1 200 OK\r\nContent-Length: 3\r\n\r\nabcHTTP/1.1 204 No Content\r\n\r\n",
        "200 3;204 0;",
    ),
    (
        "HTTP/1.1 204 No Content\r\nContent-Length: 1\r\n\r\na",
        "204 1;",
    ),
    ("HTTP/1.0 503 \nContent-Length: 0\n\nHTTP", "503 0;.."),
    ("HTTP/1.1 200 OK\r\n\r\nrest", "Bad { at: 19 }"),
    (
        "HTTP/1.1 200 OK\nContent-Length: 1073741833\n\n",
        "Bad { at: 44 }",
    ),
    (
        "HTTP/1.1 204 None\n\nGET / HTTP/1.1\n\nmore",
        "204 0;Bad { at: 35 }",
    ),
];

#[test]
fn replies_are_read_wherever_they_are_cut(rt: HostRuntime) -> Result<(), Fail> {
    are_read(&rt, rt.alloc(), &REPLIES)
}

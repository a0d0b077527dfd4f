//! `mirror_client`: pushes over connections in memory, whose peers send known bytes.

use crate::followers::{LOGIN, NO_CONTENT, UPDATE, link, reply};
use mirror_client::{Pushed, push_link};
use outside_net::MemLink;
use std::alloc::{AllocError, Global};
use std::process::Abort;
use std::test::Fail;

/// Pushes `body`, or a stop if it is `None`. Returns how that ends.
fn told(alloc: Global, link: &mut MemLink, body: Option<&[u8]>) -> Result<String, AllocError> {
    match push_link(alloc, link, "here", body) {
        Ok(Pushed::Revision(n)) => format!(in alloc; "revision {n}"),
        Ok(Pushed::Unchanged) => String::from_str(alloc, "unchanged"),
        Ok(Pushed::Stopped) => String::from_str(alloc, "stopped"),
        Ok(Pushed::Refused { status, text }) => {
            format!(in alloc; "refused {status} {:?}", text.as_slice())
        }
        Err(error) => format!(in alloc; "{error:?}"),
    }
}

/// Bytes that a peer sends, then a reply, if its status is not empty, and how a push ends.
type Push = (&'static str, &'static str, &'static [u8], &'static str);

fn input(alloc: Global, push: &Push) -> Result<Vec<u8>, AllocError> {
    let mut bytes = Vec::from_slice(alloc, push.0.as_bytes())?;
    if !push.1.is_empty() {
        reply(alloc, &mut bytes, push.1, push.2)?;
    }
    Ok(bytes)
}

/// Pushes `body`, or a stop if it is `None`. Returns how that ends, and whether the bytes that it wrote are `written`.
fn pushed(
    alloc: Global,
    push: &Push,
    body: Option<&[u8]>,
    written: &str,
) -> Result<(String, bool), AllocError> {
    let input = input(alloc, push)?;
    let mut link = link(alloc, input.as_slice(), 4096, &[])?;
    let text = told(alloc, &mut link, body)?;
    Ok((text, link.taken() == written.as_bytes()))
}

fn are_pushed(
    rt: &impl Abort,
    alloc: Global,
    rows: &[Push],
    body: Option<&[u8]>,
    written: &str,
) -> Result<(), Fail> {
    for row in rows {
        let (text, is_written) = pushed(alloc, row, body, written)?;
        assert_eq!(rt; text.as_str(), row.3);
        assert!(rt; is_written, "at {}", row.3);
    }
    Ok(())
}

const EDITS: [Push; 5] = [
    ("", "200 OK", UPDATE, "revision 4"),
    (NO_CONTENT, "", b"", "unchanged"),
    (
        "",
        "400 Bad Request",
        b"records: header column 1\n",
        "refused 400 [114, 101, 99, 111, 114, 100, 115, 58, 32, 104, 101, 97, 100, 101, 114, 32, 99, 111, 108, 117, 109, 110, 32, 49, 10]",
    ),
    ("", "200 OK", LOGIN, "BadReply { at: 71 }"),
    ("HTTP", "", b"", "Ended { at: 4 }"),
];

const RECORDS: &str = "op,kind,id\n";

const EDIT: &str =
    "POST /edit HTTP/1.1\r\nHost: here\r\nClient-DAAP-Version: 3.0\r\nContent-Length: 11\r\n\r\nop,kind,id\n";

const STOPS: [Push; 3] = [
    (NO_CONTENT, "", b"", "stopped"),
    ("", "503 Service Unavailable", b"", "refused 503 []"),
    (
        "",
        "200 OK",
        UPDATE,
        "refused 200 [109, 117, 112, 100, 0, 0, 0, 24, 109, 115, 116, 116, 0, 0, 0, 4, 0, 0, 0, 200, 109, 117, 115, 114, 0, 0, 0, 4, 0, 0, 0, 4]",
    ),
];

const STOP: &str =
    "POST /stop HTTP/1.1\r\nHost: here\r\nClient-DAAP-Version: 3.0\r\nContent-Length: 0\r\n\r\n";

#[test]
fn edits_and_stops_are_pushed(rt: HostRuntime) -> Result<(), Fail> {
    let body = Some(RECORDS.as_bytes());
    are_pushed(&rt, rt.alloc(), &EDITS, body, EDIT)?;
    are_pushed(&rt, rt.alloc(), &STOPS, None, STOP)
}

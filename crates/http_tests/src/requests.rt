//! `http_front`: requests and what they are known to be parsed as.

ghost use Rattle.std.specs.Prelude.{◌<◌};

use http_front::{BodyForm, HeadReader, Role, Verb, laws, reply_head};
use std::alloc::{AllocError, Global};
use std::process::Abort;
use std::test::Fail;

/// Appends the complete request to the text, if there is one.
fn tell_next(alloc: Global, reader: &mut HeadReader, told: &mut String) -> Result<(), AllocError> {
    if let Some(ask) = reader.next() {
        let last = if ask.close { "!" } else { "" };
        let want = ask.want;
        told.push_str(format!(in alloc; "{want:?}{last};")?.as_str())?;
    }
    Ok(())
}

// Without clauses, so that no other proof depends on what a reader has read.
fn step<'b>(
    alloc: Global,
    reader: &mut HeadReader,
    bytes: &'b [u8],
    told: &mut String,
) -> Result<Option<&'b [u8]>, AllocError> {
    match reader.feed(bytes) {
        Ok(taken) => {
            tell_next(alloc, reader, told)?;
            Ok(Some(bytes.split_at(taken).1))
        }
        Err(error) => {
            told.push_str(format!(in alloc; "{error:?}")?.as_str())?;
            Ok(None)
        }
    }
}

/// Feeds all of `piece`, and appends the requests and a final error. Each step takes at least one byte.
fn feed(
    alloc: Global,
    reader: &mut HeadReader,
    piece: &[u8],
    told: &mut String,
) -> Result<bool, AllocError> {
    let mut rest = piece;
    for _ in 0..piece.len() {
        if rest.is_empty() {
            break;
        }
        match step(alloc, reader, rest, told)? {
            Some(behind) => rest = behind,
            None => return Ok(false),
        }
    }
    Ok(rest.is_empty())
}

fn read_by(
    alloc: Global,
    reader: &mut HeadReader,
    bytes: &[u8],
    size: usize,
) -> Result<String, AllocError>
    requires { 0 < size }
{
    let mut told = String::new(alloc);
    for piece in bytes.chunks(size) {
        if !feed(alloc, reader, piece, &mut told)? {
            return Ok(told);
        }
    }
    if !reader.between() {
        told.push_str("..")?;
    }
    Ok(told)
}

/// Feeds bytes once. Returns how many were taken, and how many are buffered then.
fn taken_and_held(alloc: Global, bytes: &[u8]) -> Option<(usize, u64)> {
    let mut reader = HeadReader::new(alloc, Role::Edit).ok()?;
    let taken = reader.feed(bytes).ok()?;
    Some((taken, reader.held()))
}

fn are_held(
    rt: &impl Abort,
    alloc: Global,
    rows: &[(&'static str, usize, u64)],
) -> Result<(), Fail> {
    for (text, taken, held) in rows {
        assert!(rt;
            taken_and_held(alloc, text.as_bytes()) == Some((*taken, *held)),
            "{text}"
        );
    }
    Ok(())
}

/// Bytes that are fed at once, how many of them are taken, and how many are buffered then.
const HELD: [(&str, usize, u64); 3] = [
    ("GET /login HTTP/1.1\r\n", 21, 21),
    ("GET /login HTTP/1.1\r\n\r\nGET /", 23, 0),
    (
        "POST /edit HTTP/1.1\r\nContent-Length: 40\r\n\r\nop,",
        46,
        46,
    ),
];

#[test]
fn what_is_no_complete_request_is_held(rt: HostRuntime) -> Result<(), Fail> {
    are_held(&rt, rt.alloc(), &HELD)
}

/// Returns the requests in bytes that come in chunks of `size`; two dots mark bytes that end inside a request.
fn read(alloc: Global, role: Role, bytes: &[u8], size: usize) -> Result<String, AllocError>
    requires { 0 < size }
{
    let mut reader = HeadReader::new(alloc, role)?;
    read_by(alloc, &mut reader, bytes, size)
}

/// Compares the parsed requests.
fn ask(
    rt: &impl Abort,
    alloc: Global,
    role: Role,
    rows: &[(&'static str, &'static str)],
) -> Result<(), Fail> {
    for (request, told) in rows {
        let whole = read(alloc, role, request.as_bytes(), 1_000)?;
        assert_eq!(rt; whole.as_str(), *told);
    }
    Ok(())
}

/// Compares the parsed requests without fields, by their targets.
fn get(rt: &impl Abort, alloc: Global, rows: &[(&'static str, &'static str)]) -> Result<(), Fail> {
    for (target, told) in rows {
        let request = format!(in alloc; "GET {target} HTTP/1.1\r\n\r\n")?;
        let whole = read(alloc, Role::Listen, request.as_bytes(), 1_000)?;
        assert_eq!(rt; whole.as_str(), *told);
    }
    Ok(())
}

/// Two conditions.
const BOTH: &str =
    "Values { session: 0, browse: Albums, query: Some(And(Queries { items: [Cond(Cond { name: Text { text: \"a\" }, op: Is, pattern: Pattern { pieces: [Text { text: \"1\" }], folds: [Text { text: \"1\" }] } }), Cond(Cond { name: Text { text: \"b\" }, op: IsNot, pattern: Pattern { pieces: [Text { text: \"\" }], folds: [Text { text: \"\" }] } })] })) };";

/// Targets of a player, and the requests: paths, parameters that are left out or given twice, the rows of a listing,
/// refusals in their order, and forms.
const TARGETS: [(&str, &str); 29] = [
    ("/server-info", "ServerInfo;"),
    ("/content-codes?session-id=x", "Codes;"),
    ("/login", "Login;"),
    ("/logout", "Logout { session: 0 };"),
    (
        "/logout?session-id=1&session-id=2",
        "Logout { session: 1 };",
    ),
    ("/logout?session-id=&session-id=2", "Logout { session: 0 };"),
    ("/logout?%73ession-id=%31", "Logout { session: 1 };"),
    (
        "/update?revision-number=3&session-id=1",
        "Update { session: 1, revision: 3 };",
    ),
    ("/databases?session-id=1", "Databases { session: 1 };"),
    (
        "/databases/1/containers?session-id=1",
        "Lists { session: 1 };",
    ),
    (
        "/databases/1/browse/genres?session-id=1",
        "Values { session: 1, browse: Genres, query: None };",
    ),
    ("/databases/1/browse/albums?query='a:1'+%27b!%3A%27", BOTH),
    ("/databases/1/browse/albums?query='a:1'%2B%27b!%3A%27", BOTH),
    ("/databases/01/items", "Bad(Path);"),
    ("/databases/1/containers//items", "Bad(Path);"),
    ("/databases/1/containers/4294967296/items", "Bad(Path);"),
    ("/edit", "Bad(Path);"),
    ("/nothing?session-id=x", "Bad(Path);"),
    ("daap://share.local/login", "Login;"),
    ("HTTP://share.local/login", "Bad(Path);"),
    (
        "/databases/1/items?delta=&meta=&query=&index=&sort=name",
        "Rows { session: 0, target: Items, look: Look { query: None, meta: Default, base: 0, range: All } };",
    ),
    (
        "/databases/1/containers/3/items?session-id=2&delta=9&meta=all&index=5",
        "Rows { session: 2, target: Container(3), look: Look { query: None, meta: All, base: 9, range: One { at: 5 } } };",
    ),
    (
        "/databases/1/containers/3/items?session-id=2&delta=9&meta=all&index=5-",
        "Rows { session: 2, target: Container(3), look: Look { query: None, meta: All, base: 9, range: From { at: 5 } } };",
    ),
    (
        "/databases/1/containers/3/items?session-id=2&delta=9&meta=all&index=5-3",
        "Rows { session: 2, target: Container(3), look: Look { query: None, meta: All, base: 9, range: Span { from: 5, to: 3 } } };",
    ),
    (
        "/databases/1/containers/3/items?session-id=2&delta=9&meta=all&index=-4",
        "Rows { session: 2, target: Container(3), look: Look { query: None, meta: All, base: 9, range: Last { count: 4 } } };",
    ),
    (
        "/databases/1/items?index=1-2-3&query=x&meta=,&delta=-1&session-id=0x1",
        "Bad(Parameter { name: Text { text: \"session-id\" } });",
    ),
    (
        "/databases/1/items?index=a&query=x&delta=12345678901&session-id=1",
        "Bad(Parameter { name: Text { text: \"delta\" } });",
    ),
    (
        "/databases/1/items?delta=1&delta=x&index=-",
        "Bad(Parameter { name: Text { text: \"index\" } });",
    ),
    (
        "/databases/1/items?query='a;1'&index=x",
        "Bad(Query { error: At { place: 2, why: Byte } });",
    ),
];

#[test]
fn targets_name_requests(rt: HostRuntime) -> Result<(), Fail> {
    get(&rt, rt.alloc(), &TARGETS)
}

const EDITOR: [(&str, &str); 5] = [
    (
        "POST /edit HTTP/1.1\r\nContent-Length: 11\r\n\r\nop,kind,id\n",
        "Edit { body: Ok(Batch { edits: Edits { items: [] } }) };",
    ),
    (
        "POST /edit HTTP/1.0\n\n",
        "Edit { body: Ok(Batch { edits: Edits { items: [] } }) }!;",
    ),
    (
        "POST /edit HTTP/1.1\nContent-Length: 2\n\nop",
        "Edit { body: Err(Header { column: 2 }) };",
    ),
    ("POST /stop HTTP/1.1\r\n\r\n", "Stop;"),
    ("GET /stop HTTP/1.1\r\n\r\n", "Bad(Method { allow: Post });"),
];

const PLAYER: [(&str, &str); 9] = [
    (
        "POST /edit HTTP/1.1\r\nContent-Length: 11\r\n\r\nop,kind,id\n",
        "Bad(Path);",
    ),
    (
        "POST /logout?session-id=x HTTP/1.1\r\n\r\n",
        "Bad(Method { allow: Get });",
    ),
    ("get /login HTTP/1.1\r\n\r\n", "Bad(Method { allow: Get });"),
    (
        "GET /login HTTP/1.1\r\nConnection: Keep, Close \r\n\r\n",
        "Login!;",
    ),
    ("GET /login HTTP/1.1\r\nConnection: keep\r\n\r\n", "Login;"),
    ("GET /login\r\n\r\n", "Head"),
    (
        "GET / HTTP/1.1\r\nTransfer-Encoding: chunked\r\nContent-Length: 4194305\r\n\r\n",
        "Length",
    ),
    (
        "GET / HTTP/1.1\r\nContent-Length: 4194305\r\n\r\n",
        "BodyTooLarge",
    ),
    ("\r\n\n\r\nGET /login HTTP/1.1\r\n\r\nGET\n\n", "Login;Head"),
];

#[test]
fn roles_and_methods(rt: HostRuntime) -> Result<(), Fail> {
    ask(&rt, rt.alloc(), Role::Edit, &EDITOR)?;
    ask(&rt, rt.alloc(), Role::Listen, &PLAYER)
}

const THREE: &str =
    "\r\nGET /login HTTP/1.1\r\n\r\nPOST /edit HTTP/1.1\nContent-Length: 3\n\nop,GET /logout?session-id=1 HTTP/1.1\nConnection: close\n\nGET /up";

#[test]
fn pieces_make_no_difference(rt: HostRuntime) -> Result<(), Fail> {
    for size in 1..41 {
        let told = read(rt.alloc(), Role::Edit, THREE.as_bytes(), size)?;
        assert_eq!(rt;
            told.as_str(),
            "Login;Edit { body: Err(Header { column: 2 }) };Logout { session: 1 }!;.."
        );
    }
    Ok(())
}

/// A status, a form, the length of a body and whether the connection closes, with the head of that reply.
type Reply = (u16, BodyForm, u64, bool, &'static str);

const REPLIES: [Reply; 6] = [
    (
        200,
        BodyForm::Dmap,
        32,
        false,
        "HTTP/1.1 200 OK\r\nContent-Type: application/x-dmap-tagged\r\nContent-Length: 32\r\n\r\n",
    ),
    (
        403,
        BodyForm::NoBody,
        0,
        false,
        "HTTP/1.1 403 Forbidden\r\nContent-Length: 0\r\n\r\n",
    ),
    (
        404,
        BodyForm::NoBody,
        0,
        false,
        "HTTP/1.1 404 Not Found\r\nContent-Length: 0\r\n\r\n",
    ),
    (
        405,
        BodyForm::Allow(Verb::Post),
        0,
        false,
        "HTTP/1.1 405 Method Not Allowed\r\nContent-Length: 0\r\nAllow: POST\r\n\r\n",
    ),
    (
        431,
        BodyForm::NoBody,
        0,
        true,
        "HTTP/1.1 431 Request Header Fields Too Large\r\nContent-Length: 0\r\nConnection: close\r\n\r\n",
    ),
    (
        507,
        BodyForm::NoBody,
        0,
        false,
        "HTTP/1.1 507 Insufficient Storage\r\nContent-Length: 0\r\n\r\n",
    ),
];

fn is_head(alloc: Global, row: &Reply) -> Result<bool, AllocError> {
    let (status, form, len, last, text) = *row;
    match status {
        200 | 204 | 400 | 403 | 404 | 405 | 413 | 431 | 503 | 507 => {
            let head = reply_head(alloc, status, form, len, last)?;
            Ok(head.as_slice() == text.as_bytes())
        }
        _ => Ok(false),
    }
}

fn are_heads(rt: &impl Abort, alloc: Global, rows: &[Reply]) -> Result<(), Fail> {
    for row in rows {
        assert!(rt; is_head(alloc, row)?, "at {}", row.0);
    }
    Ok(())
}

#[test]
fn heads_of_replies(rt: HostRuntime) -> Result<(), Fail> {
    are_heads(&rt, rt.alloc(), &REPLIES)
}

#[test]
fn laws_can_be_cited() {
    laws::readings_are_one();
    laws::first_asks_stay();
    laws::refusals_stay();
    laws::joined_requests_read();
    laws::nothing_reads();
    laws::all_bytes_read();
}

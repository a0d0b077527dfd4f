//! What a hostile peer may send.

use share_server::LinkEnd;

/// A text, a second one with its number of repetitions, and a last one.
pub(super) type Coming = (&'static [u8], &'static [u8], usize, &'static [u8]);

/// Bytes that are refused at once, and the status.
pub(super) const NO_REQUESTS: [(&'static [u8], u16); 24] = [
    (b"\0\0\r\n\r\n", 400),
    (b"\n\nPRI * HTTP/2.0\r\n\r\nSM\r\n\r\n", 400),
    (b"SSH-2.0-OpenSSH_9.6\r\n\r\n", 400),
    (b"GET  /login HTTP/1.1\r\n\r\n", 400),
    (b" GET /login HTTP/1.1\r\n\r\n", 400),
    (b"GET /login HTTP/1.1 \r\n\r\n", 400),
    (b"GET /login http/1.1\r\n\r\n", 400),
    (b"GET /\xff HTTP/1.1\r\n\r\n", 400),
    (b"GET /login HTTP/1.1\r\nA : b\r\n\r\n", 400),
    (b"GET /login HTTP/1.1\r\nAB\r\n\r\n", 400),
    (b"GET /login HTTP/1.1\r\n: b\r\n\r\n", 400),
    (b"GET /login HTTP/1.1\r\nA: \0\r\n\r\n", 400),
    (b"GET /login HTTP/1.1\r\nContent-Length: +5\r\n\r\n", 400),
    (b"GET /login HTTP/1.1\r\nContent-Length: -1\r\n\r\n", 400),
    (b"GET /login HTTP/1.1\r\nContent-Length: 5, 5\r\n\r\n", 400),
    (b"GET /login HTTP/1.1\r\nContent-Length: 0x5\r\n\r\n", 400),
    (b"GET /login HTTP/1.1\r\nContent-Length:\r\n\r\n", 400),
    (
        b"GET /login HTTP/1.1\r\nContent-Length: 184467440737095516150\r\n\r\n",
        400,
    ),
    (
        b"GET /login HTTP/1.1\r\nContent-Length: 5\r\ncontent-length: 5\r\n\r\n",
        400,
    ),
    (
        b"GET /login HTTP/1.1\r\nTransfer-Encoding: identity\r\n\r\n",
        400,
    ),
    (
        b"GET /login HTTP/1.1\r\nContent-Length: 4194305\r\ntransfer-encoding:\r\n\r\n",
        400,
    ),
    (
        b"GET /login HTTP/1.1\r\nContent-Length: 4194305\r\n\r\n",
        413,
    ),
    (
        b"GET /login HTTP/1.1\r\nContent-Length: 18446744073709551615\r\n\r\n",
        413,
    ),
    (
        b"GET /login HTTP/1.1\r\nContent-Length: 99999999999999999999\r\n\r\n",
        413,
    ),
];

/// What comes over a connection of an editor, how many requests are served, and how it ends.
pub(super) const CONNECTIONS: [(Coming, usize, LinkEnd); 15] = [
    (
        (b"GET /login HTTP/1.1\r\nA: ", b"a", 16359, b""),
        0,
        LinkEnd::Cut { at: 16383 },
    ),
    (
        (b"GET /login HTTP/1.1\r\nA: ", b"a", 16360, b""),
        0,
        LinkEnd::Refused { status: 431 },
    ),
    (
        (b"", b"\r\n", 8192, b""),
        0,
        LinkEnd::Refused { status: 431 },
    ),
    (
        (b"", b"\0", 16384, b""),
        0,
        LinkEnd::Refused { status: 431 },
    ),
    (
        (b"GET /login HTTP/1.1\r\n", b"A:\r\n", 20000, b"\r\n"),
        0,
        LinkEnd::Refused { status: 431 },
    ),
    (
        (
            b"POST /edit HTTP/1.1\r\nContent-Length: 4194304\r\n\r\n",
            b"\n\n\n\n\n\n\n\n\n\n\n\n\n\n\n\n",
            262143,
            b"\n\n\n\n\n\n\n\n\n\n\n\n\n\n\n",
        ),
        0,
        LinkEnd::Cut { at: 4194351 },
    ),
    (
        (
            b"POST /edit HTTP/1.1\r\nContent-Length: 4194304\r\n\r\n",
            b"\n\n\n\n\n\n\n\n\n\n\n\n\n\n\n\n",
            262144,
            b"",
        ),
        1,
        LinkEnd::Closed,
    ),
    (
        (
            b"POST /edit HTTP/1.1\r\nContent-Length: 3\r\n\r\n",
            b"",
            0,
            b"op,kind,id\n\n",
        ),
        1,
        LinkEnd::Refused { status: 400 },
    ),
    (
        (
            b"POST /edit HTTP/1.1\r\nContent-Length: 40\r\n\r\n",
            b"",
            0,
            b"op,kind,id\nGET /login HTTP/1.1\r\n\r\n",
        ),
        0,
        LinkEnd::Cut { at: 77 },
    ),
    ((b"\r\n\n", b"", 0, b""), 0, LinkEnd::Cut { at: 3 }),
    (
        (b"\x16\x03\x01\x02\0\x01\0\x01\xfc\x03\x03", b"", 0, b""),
        0,
        LinkEnd::Cut { at: 11 },
    ),
    (
        (b"GET / HTTP/1.0\r\n\r\n", b"", 0, b"GET"),
        1,
        LinkEnd::Closed,
    ),
    (
        (
            b"GET /login HTTP/1.1\r\nConnection: x,CLOSE \r\n\r\n",
            b"",
            0,
            b"\0",
        ),
        1,
        LinkEnd::Closed,
    ),
    (
        (
            b"POST /stop HTTP/1.1\r\n\r\n",
            b"POST /stop HTTP/1.1\r\n\r\n",
            3,
            b"",
        ),
        1,
        LinkEnd::Stopped,
    ),
    (
        (b"", b"GET /server-info HTTP/1.1\r\n\r\n", 10000, b""),
        10000,
        LinkEnd::Closed,
    ),
];

/// Requests of a player, one after another, and the status of each.
pub(super) const ODD_REQUESTS: [(&'static [u8], u16); 37] = [
    (b"GET /login HTTP/1.1\r\n\r\n", 200),
    (b"GET /databases?session-id=1 HTTP/1.1\r\n\r\n", 200),
    (b"GET /databases HTTP/1.1\r\n\r\n", 403),
    (b"GET /databases?session-id=0 HTTP/1.1\r\n\r\n", 403),
    (b"GET /databases?session-id=2 HTTP/1.1\r\n\r\n", 403),
    (
        b"GET /databases?session-id=4294967295 HTTP/1.1\r\n\r\n",
        403,
    ),
    (
        b"GET /databases?session-id=4294967296 HTTP/1.1\r\n\r\n",
        400,
    ),
    (
        b"GET /databases?session-id=00000000001 HTTP/1.1\r\n\r\n",
        400,
    ),
    (b"GET /databases?session-id=-1 HTTP/1.1\r\n\r\n", 400),
    (b"GET /databases?session-id=1%00 HTTP/1.1\r\n\r\n", 400),
    (b"GET /databases?session-id=%31 HTTP/1.1\r\n\r\n", 200),
    (
        b"GET /databases?session-id=1&session-id=x HTTP/1.1\r\n\r\n",
        200,
    ),
    (
        b"GET /databases?session-id=&session-id=1 HTTP/1.1\r\n\r\n",
        403,
    ),
    (
        b"GET /databases/1/items?session-id=9&delta=x HTTP/1.1\r\n\r\n",
        400,
    ),
    (
        b"GET /databases/1/containers/4294967296/items?session-id=1 HTTP/1.1\r\n\r\n",
        404,
    ),
    (
        b"GET /databases/1/containers/../items?session-id=1 HTTP/1.1\r\n\r\n",
        404,
    ),
    (b"GET //login HTTP/1.1\r\n\r\n", 404),
    (b"GET /login/ HTTP/1.1\r\n\r\n", 404),
    (b"GET /%6Cogin HTTP/1.1\r\n\r\n", 404),
    (b"GET /LOGIN HTTP/1.1\r\n\r\n", 404),
    (b"GET /../../etc/passwd HTTP/1.1\r\n\r\n", 404),
    (b"GET /l\xc3\xb6gin HTTP/1.1\r\n\r\n", 404),
    (b"OPTIONS * HTTP/1.1\r\n\r\n", 404),
    (b"CONNECT share:3689 HTTP/1.1\r\n\r\n", 404),
    (b"GET http://x HTTP/1.1\r\n\r\n", 404),
    (b"GET http://x/server-info HTTP/1.1\r\n\r\n", 200),
    (b"HEAD /databases/1/items HTTP/1.1\r\n\r\n", 405),
    (b"DELETE /login HTTP/1.1\r\n\r\n", 405),
    (b"get /server-info HTTP/1.1\r\n\r\n", 405),
    (
        b"POST /edit HTTP/1.1\r\nContent-Length: 11\r\n\r\nop,kind,id\n",
        404,
    ),
    (b"POST /stop HTTP/1.1\r\n\r\n", 404),
    (b"\r\n\nGET /server-info HTTP/1.1\nX:\n\n", 200),
    (
        b"GET /server-info HTTP/1.1\r\nContent-Length: 23\r\n\r\nGET /login HTTP/1.1\r\n\r\n",
        200,
    ),
    (
        b"GET /server-info HTTP/1.1\r\nContent-Length: 00000000000000000000\r\n\r\n",
        200,
    ),
    (b"GET /databases?session-id=2 HTTP/1.1\r\n\r\n", 403),
    (b"GET /server-info?%&%zz=%FF HTTP/1.1\r\n\r\n", 200),
    (b"GET /databases?session-id=1&%00=%FF HTTP/1.1\r\n\r\n", 200),
];

//! What a share replies, and what a client sends it.

use std::alloc::{AllocError, Global};

/// A table of 14 content codes.
const CODES: &[u8] =
    b"mccr\0\0\x03\x05mstt\0\0\0\x04\0\0\0\xc8mdcl\0\0\00mcnm\0\0\0\x04mlogmcna\0\0\0\x12dmap.loginresponsemcty\0\0\0\x02\0\x0cmdcl\0\0\0,mcnm\0\0\0\x04mlidmcna\0\0\0\x0edmap.sessionidmcty\0\0\0\x02\0\x05mdcl\0\0\0)mcnm\0\0\0\x04msttmcna\0\0\0\x0bdmap.statusmcty\0\0\0\x02\0\x05mdcl\0\0\01mcnm\0\0\0\x04mupdmcna\0\0\0\x13dmap.updateresponsemcty\0\0\0\x02\0\x0cmdcl\0\0\01mcnm\0\0\0\x04musrmcna\0\0\0\x13dmap.serverrevisionmcty\0\0\0\x02\0\x05mdcl\0\0\0-mcnm\0\0\0\x04mutymcna\0\0\0\x0fdmap.updatetypemcty\0\0\0\x02\0\x01mdcl\0\0\06mcnm\0\0\0\x04mtcomcna\0\0\0\x18dmap.specifiedtotalcountmcty\0\0\0\x02\0\x05mdcl\0\0\00mcnm\0\0\0\x04mrcomcna\0\0\0\x12dmap.returnedcountmcty\0\0\0\x02\0\x05mdcl\0\0\0*mcnm\0\0\0\x04mlclmcna\0\0\0\x0cdmap.listingmcty\0\0\0\x02\0\x0cmdcl\0\0\0.mcnm\0\0\0\x04mlitmcna\0\0\0\x10dmap.listingitemmcty\0\0\0\x02\0\x0cmdcl\0\0\03mcnm\0\0\0\x04mudlmcna\0\0\0\x15dmap.deletedidlistingmcty\0\0\0\x02\0\x0cmdcl\0\0\0)mcnm\0\0\0\x04miidmcna\0\0\0\x0bdmap.itemidmcty\0\0\0\x02\0\x05mdcl\0\0\0+mcnm\0\0\0\x04minmmcna\0\0\0\x0ddmap.itemnamemcty\0\0\0\x02\0\x09mdcl\0\0\00mcnm\0\0\0\x04adbsmcna\0\0\0\x12daap.databasesongsmcty\0\0\0\x02\0\x0c";

const LOGIN: &[u8] = b"mlog\0\0\0\x18mstt\0\0\0\x04\0\0\0\xc8mlid\0\0\0\x04\0\0\0\x01";

/// A full listing of an item with id 7 and name `A`, at revision 3.
const ITEM: &[u8] =
    b"adbs\0\0\0^mstt\0\0\0\x04\0\0\0\xc8muty\0\0\0\x01\0musr\0\0\0\x04\0\0\0\x03mtco\0\0\0\x04\0\0\0\x01mrco\0\0\0\x04\0\0\0\x01mlcl\0\0\0\x1dmlit\0\0\0\x15miid\0\0\0\x04\0\0\0\x07minm\0\0\0\x01A";

const REVISION: &[u8] = b"mupd\0\0\0\x18mstt\0\0\0\x04\0\0\0\xc8musr\0\0\0\x04\0\0\0\x04";

/// The delta from there: the item is dropped at revision 4.
const DROPPED: &[u8] =
    b"adbs\0\0\0Umstt\0\0\0\x04\0\0\0\xc8muty\0\0\0\x01\x01musr\0\0\0\x04\0\0\0\x04mtco\0\0\0\x04\0\0\0\0mrco\0\0\0\x04\0\0\0\0mlcl\0\0\0\0mudl\0\0\0\x0cmiid\0\0\0\x04\0\0\0\x07";

/// The delta from there, if the same item was put again: it is at revision 4 as it was.
const SAME: &[u8] =
    b"adbs\0\0\0fmstt\0\0\0\x04\0\0\0\xc8muty\0\0\0\x01\x01musr\0\0\0\x04\0\0\0\x04mtco\0\0\0\x04\0\0\0\x01mrco\0\0\0\x04\0\0\0\x01mlcl\0\0\0\x1dmlit\0\0\0\x15miid\0\0\0\x04\0\0\0\x07minm\0\0\0\x01Amudl\0\0\0\0";

/// A full listing without items, at revision 2.
const NOTHING: &[u8] =
    b"adbs\0\0\0Amstt\0\0\0\x04\0\0\0\xc8muty\0\0\0\x01\0musr\0\0\0\x04\0\0\0\x02mtco\0\0\0\x04\0\0\0\0mrco\0\0\0\x04\0\0\0\0mlcl\0\0\0\0";

const RECORD: &[u8] = b"records: record 3 column 4 number\n";

/// A reply: its name, the end of its status line, and its body. One of status 204 has none.
type Reply = (&'static str, &'static str, &'static [u8]);

const REPLIES: [Reply; 11] = [
    ("codes", "200 OK", CODES),
    ("login", "200 OK", LOGIN),
    ("item", "200 OK", ITEM),
    ("revision", "200 OK", REVISION),
    ("dropped", "200 OK", DROPPED),
    ("same", "200 OK", SAME),
    ("nothing", "200 OK", NOTHING),
    ("done", "204 No Content", b""),
    ("forbidden", "403 Forbidden", b""),
    ("unavailable", "503 Service Unavailable", b""),
    ("record", "400 Bad Request", RECORD),
];

/// The requests of a client that follows for two rounds.
pub(crate) const TWO_ROUNDS: &[u8] =
    b"GET /content-codes HTTP/1.1\r\nHost: here:3689\r\nClient-DAAP-Version: 3.0\r\n\r\nGET /login HTTP/1.1\r\nHost: here:3689\r\nClient-DAAP-Version: 3.0\r\n\r\nGET /databases/1/items?session-id=1 HTTP/1.1\r\nHost: here:3689\r\nClient-DAAP-Version: 3.0\r\n\r\nGET /update?session-id=1&revision-number=3 HTTP/1.1\r\nHost: here:3689\r\nClient-DAAP-Version: 3.0\r\n\r\nGET /databases/1/items?session-id=1&delta=3 HTTP/1.1\r\nHost: here:3689\r\nClient-DAAP-Version: 3.0\r\n\r\nGET /logout?session-id=1 HTTP/1.1\r\nHost: here:3689\r\nClient-DAAP-Version: 3.0\r\n\r\n";

/// The requests of the first round.
pub(crate) const ONE_ROUND: &[u8] =
    b"GET /content-codes HTTP/1.1\r\nHost: here:3689\r\nClient-DAAP-Version: 3.0\r\n\r\nGET /login HTTP/1.1\r\nHost: here:3689\r\nClient-DAAP-Version: 3.0\r\n\r\nGET /databases/1/items?session-id=1 HTTP/1.1\r\nHost: here:3689\r\nClient-DAAP-Version: 3.0\r\n\r\n";

/// The requests of an edit, and of a stop.
pub(crate) const EDIT: &[u8] =
    b"POST /edit HTTP/1.1\r\nHost: here:3689\r\nClient-DAAP-Version: 3.0\r\nContent-Length: 11\r\n\r\nop,kind,id\n";

pub(crate) const STOP: &[u8] =
    b"POST /stop HTTP/1.1\r\nHost: here:3689\r\nClient-DAAP-Version: 3.0\r\nContent-Length: 0\r\n\r\n";

fn add_reply(
    alloc: Global,
    bytes: &mut Vec<u8>,
    status: &str,
    body: &[u8],
) -> Result<(), AllocError> {
    if status == "204 No Content" {
        return bytes.extend_from_slice(b"HTTP/1.1 204 No Content\r\n\r\n");
    }
    let len = body.len();
    let head = format!(in alloc; "HTTP/1.1 {status}\r\nContent-Length: {len}\r\n\r\n")?;
    bytes.extend_from_slice(head.as_bytes())?;
    bytes.extend_from_slice(body)
}

/// Appends the reply `name`.
fn add_named(
    alloc: Global,
    bytes: &mut Vec<u8>,
    known: &[Reply],
    name: &str,
) -> Result<(), AllocError> {
    for (other, status, body) in known {
        if *other == name {
            return add_reply(alloc, bytes, status, body);
        }
    }
    Err(AllocError)
}

/// Returns the replies with these names, one after another. A space separates the names.
pub(crate) fn replies(alloc: Global, names: &str) -> Result<Vec<u8>, AllocError> {
    let mut bytes = Vec::new(alloc);
    for name in names.split(' ') {
        add_named(alloc, &mut bytes, &REPLIES, name)?;
    }
    Ok(bytes)
}

//! One player for each worker of a share, and an editor, all connected at once: the updates of all are pending until an
//! edit, and again until a stop.

use crate::loopback::{LIBRARY, Places, await_open, brings, free_places, player, status_over};
use outside_net::{Link, MemSink, Net, TcpNet, put_all};
use std::alloc::{AllocError, Global};
use std::io::Eprint;
use std::net::{TcpListener, TcpStream};
use std::sync::Wait;
use std::test::Fail;
use std::thread::Threads;
use std::time::Clock;
use std::{net, thread};

const AT_FIRST: &[u8] = b"GET /update?session-id=1&revision-number=3 HTTP/1.1\r\n\r\n";

const BEHIND_EDIT: &[u8] = b"GET /update?session-id=1&revision-number=4 HTTP/1.1\r\n\r\n";

const EDIT: &[u8] =
    b"POST /edit HTTP/1.1\r\nContent-Length: 38\r\n\r\nop,kind,id,dmap.itemname\nput,item,9,B\n";

const STOP: &[u8] = b"POST /stop HTTP/1.1\r\n\r\n";

// The reply to the edit, and to each update that was pending until then.
const REVISED: &[u8] =
    b"HTTP/1.1 200 OK\r\nContent-Type: application/x-dmap-tagged\r\nContent-Length: 32\r\n\r\n\
mupd\0\0\0\x18mstt\0\0\0\x04\0\0\0\xc8musr\0\0\0\x04\0\0\0\x04";

const STOPPED: &[u8] = b"HTTP/1.1 204 No Content\r\nConnection: close\r\n\r\n";

const REFUSED: &[u8] =
    b"HTTP/1.1 503 Service Unavailable\r\nContent-Length: 0\r\nConnection: close\r\n\r\n";

/// Connects five players that log in and request an update.
fn five_players<N: Net>(alloc: Global, net: &mut N, place: &str) -> Option<Vec<N::L>> {
    let mut players = Vec::new(alloc);
    for session in 1..6 {
        let link = player(net, place, session, AT_FIRST)?;
        players.push(link).ok()?;
    }
    Some(players)
}

/// Returns whether the next bytes of each connection are `bytes`. Writes `more` on each.
fn all_bring<K: Link>(links: &mut [K], bytes: &[u8], more: &[u8]) -> bool {
    for link in links {
        if !brings(link, bytes) || put_all(link, more).is_err() {
            return false;
        }
    }
    true
}

/// Writes `request` on `link`. Returns whether the next bytes from it are `bytes`.
fn replies<K: Link>(link: &mut K, request: &[u8], bytes: &[u8]) -> bool {
    put_all(link, request).is_ok() && brings(link, bytes)
}

/// Returns whether five players get the replies of an edit and of a stop. The editor connects first.
fn all_hear<C: Clock, N: Net>(
    clock: &C,
    alloc: Global,
    net: &mut N,
    places: &Places,
) -> Option<bool> {
    let edit = places.edit.as_str();
    await_open(clock, net, edit);
    let mut editor = net.connect(edit).ok()?;
    let mut players = five_players(alloc, net, places.share.as_str())?;
    let links = players.as_mut_slice();
    let edited = replies(&mut editor, EDIT, REVISED) && all_bring(links, REVISED, BEHIND_EDIT);
    let stopped = replies(&mut editor, STOP, STOPPED) && all_bring(links, REFUSED, b"");
    Some(edited && stopped)
}

/// Does so over sockets.
fn hear_all<R>(rt: &R, alloc: Global, places: &Places) -> bool
where
    R: net::Net<Listener = TcpListener, Stream = TcpStream> + Clock + Eprint + Sync,
{
    all_hear(rt, alloc, &mut TcpNet::new(rt, alloc), places) == Some(true)
}

/// Returns whether five players of a share with five workers get the replies of an edit and of a stop.
fn five_hear<R>(rt: &R, alloc: Global, places: &Places) -> Result<bool, AllocError>
where
    R: net::Net<Listener = TcpListener, Stream = TcpStream>
        + Threads
        + Wait
        + Clock
        + Eprint
        + Sync,
{
    let words = [
        "serve",
        places.share.as_str(),
        places.edit.as_str(),
        "--workers=5",
        "--editors=1",
    ];
    let mut lines = MemSink::new(alloc, 256, 256, &[])?;
    let (served, is_well) = thread::join(
        rt,
        || status_over(rt, alloc, &words, LIBRARY, &mut lines),
        || hear_all(rt, alloc, places),
    );
    Ok(served == Some(0) && is_well && lines.taken().ends_with(b", requests 17\n"))
}

#[test]
fn five_players_hear_of_an_edit_and_a_stop(rt: HostRuntime) -> Result<(), Fail> {
    let places = free_places(&rt, rt.alloc())?;
    assert!(rt; five_hear(&rt, rt.alloc(), &places)?);
    Ok(())
}

//! A share, its editor and two mirrors, each a run of the program in its own thread, over sockets of this machine.

mod crowd;
mod relays;

use crate::runs::{ends, status_of};
use outside_net::{Failed, Link, Listener, MemSink, Net, Source, TcpNet, put_all};
use std::alloc::{AllocError, Global};
use std::io::Eprint;
use std::net::{TcpListener, TcpStream};
use std::string::String;
use std::sync::Wait;
use std::test::Fail;
use std::thread::Threads;
use std::time::{Clock, Duration, Instant};
use std::{io, net, thread};

const LIBRARY: &[u8] = b"op,kind,id,dmap.itemname\nput,item,7,A\n";

const CHANGE: &[u8] = b"op,kind,id,dmap.itemname\nput,item,9,B\ndrop,item,7,\n";

const FIRST_ROUND: &[u8] = b"revision 3 full put 1 drop 0 rows 1\n";

const SECOND_ROUND: &[u8] = b"revision 4 delta put 1 drop 1 rows 1\n\
mlcl list\n  mlit list\n    miid u32 9\n    minm text \"B\"\n";

// The reply to a login, without the last byte of the session number.
const LOGGED_IN: &[u8] =
    b"HTTP/1.1 200 OK\r\nContent-Type: application/x-dmap-tagged\r\nContent-Length: 32\r\n\r\n\
mlog\0\0\0\x18mstt\0\0\0\x04\0\0\0\xc8mlid\0\0\0\x04\0\0\0";

/// Returns an address of this machine at which no process listens.
fn free_place<R: net::Net<Listener = TcpListener, Stream = TcpStream>>(
    rt: &R,
    alloc: Global,
) -> io::Result<String> {
    let listener = TcpListener::bind(rt, "127.0.0.1:0")?;
    let port = listener.local_addr()?.port();
    Ok(format!(in alloc; "127.0.0.1:{port}")?)
}

/// Three addresses: those of a share, for players and for editors, and that of a third listener.
#[derive(Drop)]
pub struct Places {
    pub share: String,
    pub edit: String,
    pub third: String,
}

/// Returns addresses of this machine at which no process listens.
pub fn free_places<R: net::Net<Listener = TcpListener, Stream = TcpStream>>(
    rt: &R,
    alloc: Global,
) -> io::Result<Places> {
    Ok(Places {
        share: free_place(rt, alloc)?,
        edit: free_place(rt, alloc)?,
        third: free_place(rt, alloc)?,
    })
}

/// Connects to `place`, once a process listens there. Waits for some seconds at most.
fn await_link<C: Clock, N: Net>(clock: &C, net: &mut N, place: &str) -> Option<N::L> {
    for _ in 0..500 {
        if let Ok(link) = net.connect(place) {
            return Some(link);
        }
        thread::sleep(clock, Duration::from_millis(20));
    }
    None
}

/// Waits until `place` is open, for some seconds at most. Returns whether it is.
fn await_open<C: Clock, N: Net>(clock: &C, net: &mut N, place: &str) -> bool {
    match await_link(clock, net, place) {
        Some(link) => {
            net.close(link);
            true
        }
        None => false,
    }
}

/// Returns whether the next bytes of `source` are `bytes`.
fn brings<S: Source>(source: &mut S, bytes: &[u8]) -> bool {
    for wanted in bytes {
        let mut room = [0; 1];
        match source.read(&mut room) {
            Ok(1) if room[0] == *wanted => {}
            _ => return false,
        }
    }
    true
}

/// Logs in over `link`, and then writes `more`. Returns whether the session has the number `session`.
fn logs_in<K: Link>(link: &mut K, session: u8, more: &[u8]) -> bool {
    put_all(link, b"GET /login HTTP/1.1\r\n\r\n").is_ok()
        && put_all(link, more).is_ok()
        && brings(link, LOGGED_IN)
        && brings(link, &[session])
}

/// Connects as a player, logs in, and writes `more`. Returns the connection.
fn player<N: Net>(net: &mut N, place: &str, session: u8, more: &[u8]) -> Option<N::L> {
    let mut link = net.connect(place).ok()?;
    if logs_in(&mut link, session, more) {
        return Some(link);
    }
    net.close(link);
    None
}

/// Connects two players whose updates are pending, and closes both. Returns whether both logged in.
fn two_go_away<N: Net>(net: &mut N, place: &str) -> bool {
    let one = b"GET /update?session-id=1&revision-number=3 HTTP/1.1\r\n\r\n";
    let other = b"GET /update?session-id=2&revision-number=3 HTTP/1.1\r\n\r\n";
    let Some(first) = player(net, place, 1, one) else {
        return false;
    };
    let second = player(net, place, 2, other);
    net.close(first);
    match second {
        Some(link) => {
            net.close(link);
            true
        }
        None => false,
    }
}

/// Returns whether a third player is served within ten seconds.
fn third_is_served<C: Clock, N: Net>(clock: &C, net: &mut N, place: &str) -> bool {
    let Ok(begun) = Instant::now(clock) else {
        return false;
    };
    let Some(link) = player(net, place, 3, b"") else {
        return false;
    };
    net.close(link);
    match begun.elapsed(clock) {
        Ok(spent) => spent < Duration::from_secs(10),
        Err(_) => false,
    }
}

/// Returns the next connection that `listener` accepts.
fn next_link<D: Listener>(listener: &mut D) -> Result<D::L, Failed> {
    match listener.accept()? {
        Some(link) => Ok(link),
        None => Err(Failed),
    }
}

/// Runs a command over sockets. Returns its status.
fn status_over<R>(
    rt: &R,
    alloc: Global,
    words: &[&str],
    input: &[u8],
    output: &mut MemSink,
) -> Option<u8>
where
    R: net::Net<Listener = TcpListener, Stream = TcpStream>
        + Threads
        + Wait
        + Clock
        + Eprint
        + Sync,
{
    status_of(rt, alloc, &mut TcpNet::new(rt, alloc), words, input, output)
}

/// Sends `change` to the share at `place`. Returns whether the output of `edit` is `lines`.
pub fn takes<R: Threads + Wait + Clock + Sync, N: Net>(
    rt: &R,
    alloc: Global,
    net: &mut N,
    place: &str,
    change: &[u8],
    lines: &[u8],
) -> bool {
    ends(rt, alloc, net, &["edit", place], change, 0, lines)
}

/// Stops the share at `place`. Returns whether it was stopped.
pub fn stops<R: Threads + Wait + Clock + Sync, N: Net>(
    rt: &R,
    alloc: Global,
    net: &mut N,
    place: &str,
) -> bool {
    ends(
        rt,
        alloc,
        net,
        &["edit", place, "--stop"],
        b"",
        0,
        b"stopped\n",
    )
}

/// Follows the share for two rounds, once it is open, and writes them to a connection to `window`. Returns the status.
fn follows_over<R: Threads + Wait + Clock + Sync, N: Net>(
    rt: &R,
    alloc: Global,
    net: &mut N,
    window: &str,
    place: &str,
) -> Option<u8> {
    let mut told = await_link(rt, net, window)?;
    await_open(rt, net, place);
    status_of(rt, alloc, net, &["follow", place, "2"], b"", &mut told)
}

fn follows<R>(rt: &R, alloc: Global, places: &Places) -> bool
where
    R: net::Net<Listener = TcpListener, Stream = TcpStream>
        + Threads
        + Wait
        + Clock
        + Eprint
        + Sync,
{
    let mut net = TcpNet::new(rt, alloc);
    follows_over(
        rt,
        alloc,
        &mut net,
        places.third.as_str(),
        places.share.as_str(),
    ) == Some(0)
}

/// Runs two mirrors, each in its own thread. Returns whether both succeed.
fn both_follow<R>(rt: &R, alloc: Global, places: &Places) -> bool
where
    R: net::Net<Listener = TcpListener, Stream = TcpStream>
        + Threads
        + Wait
        + Clock
        + Eprint
        + Sync,
{
    let (one, other) = thread::join(
        rt,
        || follows(rt, alloc, places),
        || follows(rt, alloc, places),
    );
    one && other
}

/// Returns whether both mirrors write `round`.
fn both_bring<K: Source>(one: &mut K, other: &mut K, round: &[u8]) -> bool {
    brings(one, round) && brings(other, round)
}

/// Changes the share after both mirrors wrote their first round, and stops it after they wrote their second. Returns
/// whether each round and each edit is as expected.
fn edits_beside<R: Threads + Wait + Clock + Sync, S: Source, N: Net>(
    rt: &R,
    alloc: Global,
    net: &mut N,
    place: &str,
    one: &mut S,
    other: &mut S,
) -> bool {
    let first = both_bring(one, other, FIRST_ROUND);
    let changed = takes(rt, alloc, net, place, CHANGE, b"revision 4\n");
    let second = both_bring(one, other, SECOND_ROUND);
    let stopped = stops(rt, alloc, net, place);
    first && changed && second && stopped
}

/// Does so for the two mirrors that connect to the third listener.
fn edits_over<R: Threads + Wait + Clock + Sync, N: Net>(
    rt: &R,
    alloc: Global,
    net: &mut N,
    places: &Places,
) -> Option<bool> {
    let mut listeners = net.listen(places.third.as_str(), 1).ok()?;
    let listener = listeners.first_mut()?;
    let mut one = next_link(listener).ok()?;
    let mut other = next_link(listener).ok()?;
    let edit = places.edit.as_str();
    await_open(rt, net, edit);
    Some(edits_beside(rt, alloc, net, edit, &mut one, &mut other))
}

fn edits<R>(rt: &R, alloc: Global, places: &Places) -> bool
where
    R: net::Net<Listener = TcpListener, Stream = TcpStream>
        + Threads
        + Wait
        + Clock
        + Eprint
        + Sync,
{
    edits_over(rt, alloc, &mut TcpNet::new(rt, alloc), places) == Some(true)
}

/// Returns whether the mirrors and the editor end as they should.
fn followed_and_edited<R>(rt: &R, alloc: Global, places: &Places) -> bool
where
    R: net::Net<Listener = TcpListener, Stream = TcpStream>
        + Threads
        + Wait
        + Clock
        + Eprint
        + Sync,
{
    let (followed, edited) = thread::join(
        rt,
        || both_follow(rt, alloc, places),
        || edits(rt, alloc, places),
    );
    followed && edited
}

fn are_of_a_followed_share(lines: &[u8]) -> bool {
    lines.starts_with(b"serving daapshare at revision 3\nended at revision 4, links ")
        && lines.ends_with(b", requests 14\n")
}

/// Runs a share with two workers until it is stopped. Returns its status.
pub fn serve_by_two<R>(rt: &R, alloc: Global, places: &Places, lines: &mut MemSink) -> Option<u8>
where
    R: net::Net<Listener = TcpListener, Stream = TcpStream>
        + Threads
        + Wait
        + Clock
        + Eprint
        + Sync,
{
    let words = [
        "serve",
        places.share.as_str(),
        places.edit.as_str(),
        "--workers=2",
    ];
    status_over(rt, alloc, &words, LIBRARY, lines)
}

/// Returns whether a share, two mirrors and an editor end as they should.
fn is_followed<R>(rt: &R, alloc: Global, places: &Places) -> Result<bool, AllocError>
where
    R: net::Net<Listener = TcpListener, Stream = TcpStream>
        + Threads
        + Wait
        + Clock
        + Eprint
        + Sync,
{
    let mut lines = MemSink::new(alloc, 256, 256, &[])?;
    let (served, is_well) = thread::join(
        rt,
        || serve_by_two(rt, alloc, places, &mut lines),
        || followed_and_edited(rt, alloc, places),
    );
    Ok(served == Some(0) && is_well && are_of_a_followed_share(lines.taken()))
}

// Each thread opens its own connections, so threads share none.
#[test]
fn a_share_is_followed_while_it_is_changed_until_it_is_stopped(
    rt: HostRuntime,
) -> Result<(), Fail> {
    let places = free_places(&rt, rt.alloc())?;
    assert!(rt; is_followed(&rt, rt.alloc(), &places)?);
    Ok(())
}

/// Returns whether a third player is served after two left. Then stops the share.
fn third_comes<R: Threads + Wait + Clock + Sync, N: Net>(
    rt: &R,
    alloc: Global,
    net: &mut N,
    places: &Places,
) -> bool {
    let listen = places.share.as_str();
    let is_served = await_open(rt, net, listen)
        && two_go_away(net, listen)
        && third_is_served(rt, net, listen);
    stops(rt, alloc, net, places.edit.as_str()) && is_served
}

/// Does so over sockets.
fn third_comes_over<R>(rt: &R, alloc: Global, places: &Places) -> bool
where
    R: net::Net<Listener = TcpListener, Stream = TcpStream>
        + Threads
        + Wait
        + Clock
        + Eprint
        + Sync,
{
    third_comes(rt, alloc, &mut TcpNet::new(rt, alloc), places)
}

/// Returns whether two players that leave free the workers of a share for a third.
fn are_freed<R>(rt: &R, alloc: Global, places: &Places) -> Result<bool, AllocError>
where
    R: net::Net<Listener = TcpListener, Stream = TcpStream>
        + Threads
        + Wait
        + Clock
        + Eprint
        + Sync,
{
    let mut lines = MemSink::new(alloc, 256, 256, &[])?;
    let (served, is_well) = thread::join(
        rt,
        || serve_by_two(rt, alloc, places, &mut lines),
        || third_comes_over(rt, alloc, places),
    );
    Ok(served == Some(0) && is_well && lines.taken().ends_with(b", requests 4\n"))
}

#[test]
fn players_that_went_away_free_their_workers(rt: HostRuntime) -> Result<(), Fail> {
    let places = free_places(&rt, rt.alloc())?;
    assert!(rt; are_freed(&rt, rt.alloc(), &places)?);
    Ok(())
}

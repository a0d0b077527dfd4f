//! A share and its relay, each a run of the program in its own thread, and a third thread that watches the relay: a
//! player waits for each revision, and a mirror follows the relay.

use crate::loopback::{
    CHANGE, Places, await_open, brings, free_places, player, serve_by_two, stops, takes,
};
use crate::runs::{ends, status_of};
use outside_net::{Link, MemSink, Net, TcpNet, put_all};
use std::alloc::{AllocError, Global};
use std::io::Eprint;
use std::net::{TcpListener, TcpStream};
use std::sync::Wait;
use std::test::Fail;
use std::thread::Threads;
use std::time::Clock;
use std::{net, thread};

const LAST_CHANGE: &[u8] = b"op,kind,id\ndrop,item,9\n";

// A relay has revision 2 before its first listing.
const BEFORE_FIRST: &[u8] = b"GET /update?session-id=1&revision-number=2 HTTP/1.1\r\n\r\n";

const BEHIND_FIRST: &[u8] = b"GET /update?session-id=1&revision-number=3 HTTP/1.1\r\n\r\n";

// The reply to an update, without the last byte of the revision.
const UPDATED: &[u8] =
    b"HTTP/1.1 200 OK\r\nContent-Type: application/x-dmap-tagged\r\nContent-Length: 32\r\n\r\n\
mupd\0\0\0\x18mstt\0\0\0\x04\0\0\0\xc8musr\0\0\0\x04\0\0\0";

const FOLLOWED: &[u8] = b"revision 4 full put 1 drop 0 rows 1\n\
mlcl list\n  mlit list\n    miid u32 9\n    minm text \"B\"\n";

const RELAYED: &[u8] = b"relaying Attic\n\
upstream 3 full puts 1 drops 0 revision 3\n\
upstream 4 delta puts 1 drops 1 revision 4\n\
upstream 5 delta puts 0 drops 1 revision 5\n\
ended at revision 5, links ";

/// Returns whether the relay sends its first revision to a player, and the next one after the share was changed.
fn sends_both<R: Threads + Wait + Clock + Sync, N: Net, K: Link>(
    rt: &R,
    alloc: Global,
    net: &mut N,
    link: &mut K,
    edit: &str,
) -> bool {
    brings(link, UPDATED)
        && brings(link, b"\x03")
        && takes(rt, alloc, net, edit, CHANGE, b"revision 4\n")
        && put_all(link, BEHIND_FIRST).is_ok()
        && brings(link, UPDATED)
        && brings(link, b"\x04")
}

/// Returns whether the relay has what the share has, change by change, until its last round.
fn keeps_up<R: Threads + Wait + Clock + Sync, N: Net>(
    rt: &R,
    alloc: Global,
    net: &mut N,
    places: &Places,
) -> bool {
    let (relay, edit) = (places.third.as_str(), places.edit.as_str());
    await_open(rt, net, relay);
    let Some(mut link) = player(net, relay, 1, BEFORE_FIRST) else {
        return false;
    };
    let is_sent = sends_both(rt, alloc, net, &mut link, edit);
    net.close(link);
    is_sent
        && ends(rt, alloc, net, &["follow", relay, "1"], b"", 0, FOLLOWED)
        && takes(rt, alloc, net, edit, LAST_CHANGE, b"revision 5\n")
}

/// Does so over sockets. If the relay is not as expected, stops the share, so that the relay ends.
fn watches<R>(rt: &R, alloc: Global, places: &Places) -> bool
where
    R: net::Net<Listener = TcpListener, Stream = TcpStream>
        + Threads
        + Wait
        + Clock
        + Eprint
        + Sync,
{
    let mut net = TcpNet::new(rt, alloc);
    let is_well = keeps_up(rt, alloc, &mut net, places);
    if !is_well {
        stops(rt, alloc, &mut net, places.edit.as_str());
    }
    is_well
}

/// Runs the relay, once the share is open. Returns its status.
fn relays<R>(rt: &R, alloc: Global, places: &Places, lines: &mut MemSink) -> Option<u8>
where
    R: net::Net<Listener = TcpListener, Stream = TcpStream>
        + Threads
        + Wait
        + Clock
        + Eprint
        + Sync,
{
    let mut net = TcpNet::new(rt, alloc);
    let share = places.share.as_str();
    await_open(rt, &mut net, share);
    let words = [
        "relay",
        share,
        places.third.as_str(),
        "3",
        "--name=Attic",
        "--workers=2",
    ];
    status_of(rt, alloc, &mut net, &words, b"", lines)
}

/// Returns whether the relay kept up and ended, and the editor stopped the share after it.
fn relayed<R>(rt: &R, alloc: Global, places: &Places, lines: &mut MemSink) -> bool
where
    R: net::Net<Listener = TcpListener, Stream = TcpStream>
        + Threads
        + Wait
        + Clock
        + Eprint
        + Sync,
{
    let (relayed, is_well) = thread::join(
        rt,
        || relays(rt, alloc, places, lines),
        || watches(rt, alloc, places),
    );
    let mut net = TcpNet::new(rt, alloc);
    stops(rt, alloc, &mut net, places.edit.as_str()) && relayed == Some(0) && is_well
}

fn are_of_a_relay(lines: &[u8]) -> bool {
    lines.starts_with(RELAYED) && lines.ends_with(b", requests 7\n")
}

/// Returns whether a share, its relay and a mirror of the relay end as they should.
fn is_relayed<R>(rt: &R, alloc: Global, places: &Places) -> Result<bool, AllocError>
where
    R: net::Net<Listener = TcpListener, Stream = TcpStream>
        + Threads
        + Wait
        + Clock
        + Eprint
        + Sync,
{
    let mut served = MemSink::new(alloc, 256, 256, &[])?;
    let mut lines = MemSink::new(alloc, 256, 256, &[])?;
    let (status, is_well) = thread::join(
        rt,
        || serve_by_two(rt, alloc, places, &mut served),
        || relayed(rt, alloc, places, &mut lines),
    );
    let is_told = are_of_a_relay(lines.taken()) && served.taken().ends_with(b", requests 11\n");
    Ok(status == Some(0) && is_well && is_told)
}

#[test]
fn a_relay_has_what_its_share_has_until_its_last_round(rt: HostRuntime) -> Result<(), Fail> {
    let places = free_places(&rt, rt.alloc())?;
    assert!(rt; is_relayed(&rt, rt.alloc(), &places)?);
    Ok(())
}

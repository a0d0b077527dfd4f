//! Probes of connections over sockets, on this machine's loopback.

use crate::runtimes::{Chosen, Time};
use crate::sockets::{Meeting, free_place, met, next_link};
use outside_net::{Failed, HELD_SECONDS, Link, Listener, Net, Sink, Source, TcpNet, put_all};
use std::alloc::Global;
use std::io::Eprint;
use std::net::{TcpListener, TcpStream};
use std::test::Fail;
use std::time::{Clock, Duration};
use std::{net, thread};

/// Whether the next read of one byte returns `byte`.
fn brings<I: Source>(input: &mut I, byte: u8) -> bool {
    let mut room = [0; 1];
    input.read(&mut room).ok() == Some(1) && room[0] == byte
}

/// Whether probes leave a byte that has come: the second of two that came together.
fn probes_leave_bytes<L: Link>(far: &mut L, near: &mut L) -> bool {
    let begins = near.probe().is_ok() && put_all(far, b"xy").is_ok() && brings(near, b'x');
    begins && near.probe().is_ok() && brings(near, b'y') && near.probe().is_ok()
}

/// Waits until a probe fails or succeeds, as `wanted`, for some seconds at most. Returns whether it does.
fn await_probe<C: Clock, L: Link>(clock: &C, link: &mut L, wanted: bool) -> bool {
    for _ in 0..500 {
        if link.probe().is_ok() == wanted {
            return true;
        }
        thread::sleep(clock, Duration::from_millis(10));
    }
    false
}

/// Whether probes leave bytes, and fail once the peer's end has come.
fn tells<C: Clock, N: Net>(clock: &C, net: &mut N, place: &str) -> Result<bool, Failed> {
    let Meeting {
        listener: _listener,
        mut far,
        mut near,
    } = met(net, place)?;
    let leaves = probes_leave_bytes(&mut far, &mut near);
    net.close(far);
    Ok(leaves && await_probe(clock, &mut near, false))
}

/// The same over sockets.
fn tells_over_sockets<R>(rt: R, alloc: Global) -> Result<bool, Fail>
where
    R: net::Net<Listener = TcpListener, Stream = TcpStream> + Clock + Copy + Eprint + Send,
{
    let place = free_place(&rt, alloc)?;
    Ok(tells(&rt, &mut TcpNet::new(rt, alloc), place.as_str())?)
}

#[test]
fn a_probe_tells_a_peer_that_has_gone(rt: HostRuntime) -> Result<(), Fail> {
    assert!(rt; tells_over_sockets(&rt, rt.alloc())?);
    Ok(())
}

/// Whether a probe succeeds once the clock is `seconds` later.
fn is_there_after<L: Link>(seconds: u64, time: &Time, link: &mut L) -> bool {
    time.pass(seconds);
    link.probe().is_ok()
}

/// Whether a byte is written, and a probe then succeeds.
fn is_written<L: Link>(link: &mut L) -> bool {
    link.write(b"x").is_ok() && link.probe().is_ok()
}

/// Whether a connection that is held for its limit stays while nobody waits at its address, also one that is held
/// again after a byte, and one that is held for less than the limit while somebody does.
fn stays<L: Link, N: Net>(
    time: &Time,
    near: &mut L,
    net: &mut N,
    place: &str,
) -> Result<Option<N::L>, Failed> {
    let most = HELD_SECONDS - 1;
    let is_there = is_there_after(0, time, near)
        && is_there_after(HELD_SECONDS, time, near)
        && is_written(near);
    let caller = net.connect(place)?;
    Ok((is_there && is_there_after(most, time, near)).then_some(caller))
}

/// Whether a connection that is held for its limit fails once another one waits at its address.
fn is_freed<N: Net>(time: &Time, net: &mut N, place: &str) -> Result<bool, Failed> {
    let Meeting {
        mut listener,
        far: _far,
        mut near,
    } = met(net, place)?;
    let Some(_caller) = stays(time, &mut near, net, place)? else {
        return Ok(false);
    };
    let is_ended = !is_there_after(1, time, &mut near);
    let _accepted = next_link(&mut listener)?;
    Ok(is_ended && near.probe().is_ok())
}

/// The same over the sockets of `later`, whose clock shows `time`.
fn is_freed_by<C>(alloc: Global, time: &Time, later: C) -> Result<bool, Fail>
where
    C: net::Net<Listener = TcpListener, Stream = TcpStream> + Clock + Copy + Eprint + Send,
{
    let place = free_place(&later, alloc)?;
    let mut net = TcpNet::new(later, alloc);
    Ok(is_freed(time, &mut net, place.as_str())?)
}

/// The same over the sockets of `rt`.
fn is_freed_over_sockets<R>(rt: &R, alloc: Global) -> Result<bool, Fail>
where
    R: net::Net<Listener = TcpListener, Stream = TcpStream> + Clock + Sync,
{
    let chosen = Chosen {
        rt,
        time: Time::new(),
        stream: None,
    };
    is_freed_by(alloc, &chosen.time, &chosen)
}

#[test]
fn a_link_that_is_held_too_long_ends_for_one_that_waits(rt: HostRuntime) -> Result<(), Fail> {
    assert!(rt; is_freed_over_sockets(&rt, rt.alloc())?);
    Ok(())
}

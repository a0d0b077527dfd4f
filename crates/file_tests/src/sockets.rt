//! Runs connections and listeners over sockets, on this machine's loopback.

use outside_net::{Failed, Link, Listener, Net, NetError, Sink, Source, TcpNet, put_all};
use std::alloc::Global;
use std::io::Eprint;
use std::net::{TcpListener, TcpStream};
use std::string::String;
use std::sync::Wait;
use std::test::Fail;
use std::thread::Threads;
use std::time::Clock;
use std::{io, net, thread};

/// A port of this machine without a listener.
fn free_port<R: net::Net<Listener = TcpListener, Stream = TcpStream>>(rt: &R) -> io::Result<u16> {
    let listener = TcpListener::bind(rt, "127.0.0.1:0")?;
    Ok(listener.local_addr()?.port())
}

/// An address of this machine without a listener.
pub fn free_place<R: net::Net<Listener = TcpListener, Stream = TcpStream>>(
    rt: &R,
    alloc: Global,
) -> io::Result<String> {
    let port = free_port(rt)?;
    Ok(format!(in alloc; "127.0.0.1:{port}")?)
}

/// The next connection that comes to the listener.
pub fn next_link<D: Listener>(listener: &mut D) -> Result<D::L, Failed> {
    match listener.accept()? {
        Some(link) => Ok(link),
        None => Err(Failed),
    }
}

/// A listener, and both ends of a connection that came to it.
#[derive(Drop)]
pub struct Meeting<D, L> {
    pub listener: D,
    pub far: L,
    pub near: L,
}

/// Listens at an address.
pub fn opened<N: Net>(net: &mut N, place: &str) -> Result<N::D, Failed> {
    match net.listen(place, 1) {
        Ok(mut listeners) => listeners.pop().ok_or(Failed),
        Err(_) => Err(Failed),
    }
}

/// Listens at an address, and connects to it.
pub fn met<N: Net>(net: &mut N, place: &str) -> Result<Meeting<N::D, N::L>, Failed> {
    let mut listener = opened(net, place)?;
    let far = net.connect(place)?;
    let near = next_link(&mut listener)?;
    Ok(Meeting {
        listener,
        far,
        near,
    })
}

/// Whether an address in use, and texts that are not addresses, are refused.
fn refuses<N: Net>(net: &mut N, in_use: &str) -> bool {
    matches!(net.listen(in_use, 1), Err(NetError::Failed))
        && matches!(net.listen("no place", 1), Err(NetError::Failed))
        && net.connect("no place").is_err()
}

/// Whether an address that two listeners have is refused to others.
fn listens_once<N: Net>(net: &mut N, place: &str) -> bool {
    match net.listen(place, 2) {
        Ok(listeners) => listeners.len() == 2 && refuses(net, place),
        Err(_) => false,
    }
}

/// Whether the next read of at most three bytes returns `bytes`.
fn brings<I: Source>(input: &mut I, bytes: &[u8]) -> bool {
    let mut room = [0; 3];
    input.read(&mut room).ok() == Some(bytes.len()) && room.starts_with(bytes)
}

/// Whether a connection returns what was written at its other end.
fn hears<L: Link>(far: &mut L, near: &mut L) -> bool {
    put_all(far, b"hello").is_ok() && brings(near, b"hel") && brings(near, b"lo")
}

/// Whether bytes go both ways.
fn talks<N: Net>(net: &mut N, place: &str) -> bool {
    match met(net, place) {
        Ok(
            Meeting {
                mut far,
                mut near,
                ..
            },
        ) => hears(&mut far, &mut near) && hears(&mut near, &mut far),
        Err(Failed) => false,
    }
}

/// Writes until a write fails, as it does once the peer's response to an earlier one has come.
fn fails_to_write<W: Sink>(sink: &mut W) -> bool {
    for _ in 0..100 {
        if sink.write(b"x").is_err() {
            return true;
        }
    }
    false
}

/// Whether a write at one end fails once the other is closed.
fn closes<N: Net>(net: &mut N, place: &str) -> bool {
    match met(net, place) {
        Ok(
            Meeting {
                mut listener,
                mut far,
                near,
            },
        ) => {
            listener.done(near);
            fails_to_write(&mut far)
        }
        Err(Failed) => false,
    }
}

/// Answers a connection's first bytes with a refusal, and returns it.
fn refuse<D: Listener>(listener: &mut D) -> Result<(), Failed> {
    let mut link = next_link(listener)?;
    let mut room = [0; 64];
    link.read(&mut room)?;
    put_all(&mut link, b"413")?;
    listener.done(link);
    Ok(())
}

/// Whether a client that sends 5 MB while a listener refuses its first bytes has sent all, and then reads the
/// refusal.
fn reads_refusal<R: Threads + Wait + Sync, D: Listener + Send, L: Link + Send>(
    rt: &R,
    alloc: Global,
    listener: &mut D,
    far: &mut L,
) -> Result<bool, Fail> {
    let bytes = vec![in alloc; 7u8; 5_000_000]?;
    let (refused, sent) = thread::join(
        rt,
        || refuse(listener).is_ok(),
        || put_all(far, bytes.as_slice()).is_ok(),
    );
    let mut room = [0; 8];
    let is_read = far.read(&mut room)? == 3 && room.starts_with(b"413");
    Ok(refused && sent && is_read && far.read(&mut room)? == 0)
}

/// The same of a listener and a client of one network.
fn reads_refusal_over<R: Threads + Wait + Sync, N: Net>(
    rt: &R,
    alloc: Global,
    net: &mut N,
    place: &str,
) -> Result<bool, Fail> {
    let mut listener = opened(net, place)?;
    let mut far = net.connect(place)?;
    reads_refusal(rt, alloc, &mut listener, &mut far)
}

/// The same over sockets.
fn reads_refusal_over_sockets<R>(rt: R, alloc: Global) -> Result<bool, Fail>
where
    R: net::Net<Listener = TcpListener, Stream = TcpStream> + Clock + Copy + Eprint + Send,
    R: Threads + Wait + Sync,
{
    let place = free_place(&rt, alloc)?;
    reads_refusal_over(&rt, alloc, &mut TcpNet::new(rt, alloc), place.as_str())
}

#[test]
fn a_client_that_is_still_sending_reads_its_refusal(rt: HostRuntime) -> Result<(), Fail> {
    assert!(rt; reads_refusal_over_sockets(&rt, rt.alloc())?);
    Ok(())
}

/// Whether the next connection brings no bytes.
fn brings_none<D: Listener>(listener: &mut D) -> bool {
    match next_link(listener) {
        Ok(mut link) => link.read(&mut [0; 4096]).ok() == Some(0),
        Err(Failed) => false,
    }
}

/// Whether waking the second of two listeners brings the first one a connection without bytes.
fn wakes<N: Net>(net: &mut N, place: &str) -> bool {
    let Ok(mut listeners) = net.listen(place, 2) else {
        return false;
    };
    let Some(mut other) = listeners.pop() else {
        return false;
    };
    other.wake_acceptors();
    match listeners.first_mut() {
        Some(listener) => brings_none(listener),
        None => false,
    }
}

/// What does not hold at an address, first of all.
fn first_wrong<N: Net>(net: &mut N, place: &str) -> Option<&'static str> {
    if !listens_once(net, place) {
        return Some("an address in use is refused");
    }
    if !talks(net, place) {
        return Some("bytes go both ways");
    }
    if !closes(net, place) {
        return Some("a write fails once the peer closed");
    }
    if !wakes(net, place) {
        return Some("waking reaches a listener");
    }
    None
}

/// The same over sockets.
fn first_wrong_of_sockets<R>(rt: R, alloc: Global) -> io::Result<Option<&'static str>>
where
    R: net::Net<Listener = TcpListener, Stream = TcpStream> + Clock + Copy + Eprint + Send,
{
    let place = free_place(&rt, alloc)?;
    Ok(first_wrong(&mut TcpNet::new(rt, alloc), place.as_str()))
}

#[test]
fn sockets_do_what_nets_do(rt: HostRuntime) -> Result<(), Fail> {
    assert_eq!(rt; first_wrong_of_sockets(&rt, rt.alloc())?, None);
    Ok(())
}

/// What failed last at a network, as text.
fn cause_of<R>(alloc: Global, net: &TcpNet<R>) -> Result<String, Fail> {
    match net.cause() {
        Some(cause) => Ok(format!(in alloc; "{cause}")?),
        None => Ok(String::new(alloc)),
    }
}

/// Whether a network has a cause of these words for what it could not do at an address.
fn is_caused<R>(
    alloc: Global,
    net: &TcpNet<R>,
    place: &str,
    action: &str,
    error: &str,
) -> Result<bool, Fail> {
    let text = format!(in alloc; "{action} {place}: {error}")?;
    Ok(cause_of(alloc, net)?.as_str() == text.as_str())
}

/// Whether a network has causes for what fails at an address that is not used, and then at the same one in use.
fn tells_causes<R>(rt: R, alloc: Global) -> Result<bool, Fail>
where
    R: net::Net<Listener = TcpListener, Stream = TcpStream> + Clock + Copy + Eprint + Send,
{
    let free = free_place(&rt, alloc)?;
    let place = free.as_str();
    let mut net = TcpNet::new(rt, alloc);
    let is_new = net.cause().is_none() && net.connect(place).is_err();
    let refused = "Connection refused (os error 111)";
    let is_refused = is_caused(alloc, &net, place, "cannot connect to", refused)?;
    let _listener = opened(&mut net, place)?;
    let is_used = opened(&mut net, place).is_err();
    let used = "Address already in use (os error 98)";
    Ok(is_new && is_refused && is_used && is_caused(alloc, &net, place, "cannot listen at", used)?)
}

#[test]
fn a_network_tells_why_a_call_failed(rt: HostRuntime) -> Result<(), Fail> {
    assert!(rt; tells_causes(&rt, rt.alloc())?);
    Ok(())
}

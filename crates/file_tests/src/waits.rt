//! Reads and writes over sockets that wait too long, on this machine's loopback.

use crate::runtimes::{Chosen, Time};
use crate::sockets::{free_place, met};
use outside_net::{Net, Reading, Sink, Source, TcpNet, put_all};
use std::alloc::{AllocError, Global};
use std::io::Eprint;
use std::net::{Shutdown, TcpListener, TcpStream};
use std::sync::Wait;
use std::test::Fail;
use std::thread::Threads;
use std::time::{Clock, Duration};
use std::{io, net, thread};

/// Both ends of a connection.
fn pair<R: net::Net<Listener = TcpListener, Stream = TcpStream>>(
    rt: &R,
) -> io::Result<(TcpStream, TcpStream)> {
    let listener = TcpListener::bind(rt, "127.0.0.1:0")?;
    let far = TcpStream::connect(rt, listener.local_addr()?)?;
    let (near, _) = listener.accept()?;
    Ok((far, near))
}

/// Whether a connection sends at once, and how long it waits to read and to write.
fn options_of(stream: &TcpStream) -> io::Result<(bool, Option<Duration>, Option<Duration>)> {
    Ok((
        stream.nodelay()?,
        stream.read_timeout()?,
        stream.write_timeout()?,
    ))
}

/// Whether a read of a connection over `stream` that waits too long is an error.
fn waits_no_longer<I: Source>(stream: &TcpStream, link: &mut I) -> io::Result<bool> {
    stream.set_read_timeout(Some(Duration::from_millis(10)))?;
    Ok(link.read(&mut [0; 3]).is_err())
}

/// Whether a connection that this program made has its options, and a read of it that waits too long is an error.
fn is_made<N: Net>(stream: &TcpStream, net: &mut N) -> io::Result<bool> {
    let Ok(mut link) = net.connect("127.0.0.1:1") else {
        return Ok(false);
    };
    let minute = Some(Duration::from_secs(60));
    Ok(options_of(stream)? == (true, None, minute) && waits_no_longer(stream, &mut link)?)
}

/// The same of a network over the sockets of `rt`.
fn is_made_by<R>(rt: R, alloc: Global, stream: &TcpStream) -> io::Result<bool>
where
    R: net::Net<Listener = TcpListener, Stream = TcpStream> + Clock + Copy + Eprint + Send,
{
    is_made(stream, &mut TcpNet::new(rt, alloc))
}

/// The same of a runtime whose connections are all over `stream`.
fn is_made_over<'a, R>(rt: &'a R, alloc: Global, stream: &'a TcpStream) -> io::Result<bool>
where
    R: net::Net<Listener = TcpListener, Stream = TcpStream> + Clock + Sync,
{
    let chosen = Chosen {
        rt,
        time: Time::new(),
        stream: Some(stream),
    };
    is_made_by(&chosen, alloc, stream)
}

/// The same over a socket of this machine.
fn is_made_over_sockets<R>(rt: &R, alloc: Global) -> io::Result<bool>
where
    R: net::Net<Listener = TcpListener, Stream = TcpStream> + Clock + Sync,
{
    let (far, _near) = pair(rt)?;
    is_made_over(rt, alloc, &far)
}

#[test]
fn a_link_waits_no_longer_than_it_may(rt: HostRuntime) -> Result<(), Fail> {
    assert!(rt; is_made_over_sockets(&rt, rt.alloc())?);
    Ok(())
}

/// How long an accepted connection over sockets waits to read, until it checks whether it waits on, and to write.
fn accepted_timeouts<R>(rt: R, alloc: Global) -> Result<(Option<Duration>, Option<Duration>), Fail>
where
    R: net::Net<Listener = TcpListener, Stream = TcpStream> + Clock + Copy + Eprint + Send,
{
    let place = free_place(&rt, alloc)?;
    let meeting = met(&mut TcpNet::new(rt, alloc), place.as_str())?;
    Ok(meeting.near.timeouts()?)
}

/// Whether these are a second and a minute.
fn are_as_long_as_they_may((reads, writes): (Option<Duration>, Option<Duration>)) -> bool {
    reads == Some(Duration::from_secs(1)) && writes == Some(Duration::from_secs(60))
}

#[test]
fn an_accepted_link_waits_no_longer_than_it_may(rt: HostRuntime) -> Result<(), Fail> {
    assert!(rt; are_as_long_as_they_may(accepted_timeouts(&rt, rt.alloc())?));
    Ok(())
}

/// More bytes than a socket buffers for a reader that pauses.
const LONG: usize = 16_777_216;

/// Reads the input to its end after a pause, and returns the number of bytes, if they change as they should.
fn read_changing<C: Clock, I: Source>(clock: &C, input: &mut I) -> Option<usize> {
    thread::sleep(clock, Duration::from_millis(300));
    let mut room = [0; 32_768];
    let mut count = 0usize;
    for _ in 0..u64::MAX {
        let n = input.read(&mut room).ok()?;
        if n == 0 {
            return Some(count);
        }
        for byte in &room[..n] {
            if *byte != (count % 251) as u8 {
                return None;
            }
            count = count.saturating_add(1);
        }
    }
    None
}

/// Writes all to a connection over `stream`, in two calls or more, and returns how many bytes the first one wrote
/// while nobody read.
fn write_cut<W: Sink>(stream: &TcpStream, link: &mut W, bytes: &[u8]) -> Option<usize> {
    if bytes.is_empty() {
        return None;
    }
    let short = Some(Duration::from_millis(100));
    stream.set_write_timeout(short).ok()?;
    let n = link.write(bytes).ok()?;
    stream.set_write_timeout(None).ok()?;
    put_all(link, &bytes[n..]).ok()?;
    stream.shutdown(Shutdown::Write).ok()?;
    Some(n)
}

/// Does so over a connection that the network makes.
fn connect_and_write<N: Net>(stream: &TcpStream, net: &mut N, bytes: &[u8]) -> Option<usize> {
    let mut link = net.connect("127.0.0.1:1").ok()?;
    write_cut(stream, &mut link, bytes)
}

/// `LONG` bytes that change.
fn changing(alloc: Global) -> Result<Vec<u8>, AllocError> {
    let mut bytes = Vec::with_capacity(alloc, LONG)?;
    for i in 0..LONG {
        bytes.push((i % 251) as u8)?;
    }
    Ok(bytes)
}

/// The number of bytes that a short write wrote at first, and the number read at the other end.
fn cut<R, N, I>(
    rt: &R,
    bytes: &[u8],
    stream: &TcpStream,
    net: &mut N,
    input: &mut I,
) -> (Option<usize>, Option<usize>)
where
    R: Threads + Wait + Clock + Sync,
    N: Net + Send,
    I: Source + Send,
{
    thread::join(
        rt,
        || connect_and_write(stream, net, bytes),
        || read_changing(rt, input),
    )
}

/// Whether a short write wrote less than all at first, and all is read at the other end.
fn goes_on<R, N>(
    rt: &R,
    alloc: Global,
    stream: &TcpStream,
    net: &mut N,
    near: TcpStream,
) -> Result<bool, AllocError>
where
    R: Threads + Wait + Clock + Sync,
    N: Net + Send,
{
    let bytes = changing(alloc)?;
    let mut input = Reading::new(near);
    let (first, read) = cut(rt, bytes.as_slice(), stream, net, &mut input);
    Ok(matches!(first, Some(n) if n < LONG) && read == Some(LONG))
}

/// The same of a network over the sockets of `made_by`.
fn goes_on_by<R, C>(
    rt: &R,
    alloc: Global,
    stream: &TcpStream,
    made_by: C,
    near: TcpStream,
) -> Result<bool, AllocError>
where
    R: Threads + Wait + Clock + Sync,
    C: net::Net<Listener = TcpListener, Stream = TcpStream> + Clock + Copy + Eprint + Send,
{
    goes_on(rt, alloc, stream, &mut TcpNet::new(made_by, alloc), near)
}

/// The same of a runtime whose connections are all over `stream`.
fn goes_on_over<'a, R>(
    rt: &'a R,
    alloc: Global,
    stream: &'a TcpStream,
    near: TcpStream,
) -> Result<bool, AllocError>
where
    R: net::Net<Listener = TcpListener, Stream = TcpStream> + Threads + Wait + Clock + Sync,
{
    let chosen = Chosen {
        rt,
        time: Time::new(),
        stream: Some(stream),
    };
    goes_on_by(rt, alloc, stream, &chosen, near)
}

/// The same over a socket of this machine.
fn goes_on_over_sockets<R>(rt: &R, alloc: Global) -> Result<bool, Fail>
where
    R: net::Net<Listener = TcpListener, Stream = TcpStream> + Threads + Wait + Clock + Sync,
{
    let (far, near) = pair(rt)?;
    Ok(goes_on_over(rt, alloc, &far, near)?)
}

#[test]
fn a_write_that_is_cut_short_goes_on(rt: HostRuntime) -> Result<(), Fail> {
    assert!(rt; goes_on_over_sockets(&rt, rt.alloc())?);
    Ok(())
}

//! Reads over sockets whose peer is silent, on this machine's loopback, with a clock that the test sets forward.

use crate::runtimes::{Chosen, Time};
use crate::sockets::{free_place, next_link, opened};
use outside_net::{CROWDED_SECONDS, Failed, Listener, Net, READ_SECONDS, Sink, Source, TcpNet};
use std::alloc::Global;
use std::io::Eprint;
use std::net::{TcpListener, TcpStream};
use std::process::Abort;
use std::sync::Wait;
use std::sync::atomic::{AtomicBool, Ordering};
use std::test::Fail;
use std::thread::Threads;
use std::time::{Clock, Duration};
use std::{net, thread};

/// How many readings of the clock show that reads that wait have checked since whether they wait on.
const CHECKS: u64 = 3;

/// Waits until the clock of the test was read `goal` times, or a read has ended, for some seconds at most.
fn await_readings<C: Clock>(clock: &C, time: &Time, goal: u64, is_ended: &AtomicBool) {
    for _ in 0..2_000 {
        if time.readings() >= goal || is_ended.load(Ordering::SeqCst) {
            return;
        }
        thread::sleep(clock, Duration::from_millis(10));
    }
}

/// Sets the clock forward once a read has begun, after `before` readings, and sends a byte once the read has checked
/// whether it waits on. Returns whether the byte was sent.
fn pass<C: Clock, W: Sink>(
    clock: &C,
    time: &Time,
    before: u64,
    seconds: u64,
    is_ended: &AtomicBool,
    far: &mut W,
) -> bool {
    await_readings(clock, time, before.saturating_add(1), is_ended);
    time.pass(seconds);
    let goal = time.readings().saturating_add(CHECKS);
    await_readings(clock, time, goal, is_ended);
    far.write(b"x").is_ok()
}

/// Reads a byte, and then notes that the read has ended. Returns whether it succeeded.
fn read_and_note<L: Source>(near: &mut L, is_ended: &AtomicBool) -> bool {
    let is_read = near.read(&mut [0; 1]).is_ok();
    is_ended.store(true, Ordering::SeqCst);
    is_read
}

/// Whether a read still waits when the clock is `seconds` later, or `None` if no byte can be sent to end it.
fn waits<R, L>(rt: &R, time: &Time, seconds: u64, far: &mut L, near: &mut L) -> Option<bool>
where
    R: Threads + Wait + Clock + Sync,
    L: Source + Sink + Send,
{
    let before = time.readings();
    let is_ended = AtomicBool::new(false);
    let (is_read, is_sent) = thread::join(
        rt,
        || read_and_note(near, &is_ended),
        || pass(rt, time, before, seconds, &is_ended, far),
    );
    is_sent.then_some(is_read)
}

/// What does not hold of a silent connection and then of a stop, first of all.
fn first_wrong_of_one<R, N>(
    rt: &R,
    time: &Time,
    net: &mut N,
    place: &str,
) -> Result<Option<&'static str>, Failed>
where
    R: Threads + Wait + Clock + Sync,
    N: Net,
{
    let mut listener = opened(net, place)?;
    let (mut far, mut near) = (net.connect(place)?, next_link(&mut listener)?);
    if waits(rt, time, READ_SECONDS - 1, &mut far, &mut near) != Some(true) {
        return Ok(Some("a read waits while nobody else does"));
    }
    if waits(rt, time, READ_SECONDS, &mut far, &mut near) != Some(false) {
        return Ok(Some("a read ends after half an hour"));
    }
    let (mut far, mut near) = (net.connect(place)?, next_link(&mut listener)?);
    listener.wake_acceptors();
    let _waking = next_link(&mut listener)?;
    if waits(rt, time, 4, &mut far, &mut near) != Some(true) {
        return Ok(Some("a request within a stop's seconds is read"));
    }
    if waits(rt, time, 1, &mut far, &mut near) != Some(false) {
        return Ok(Some("a read ends after a stop's seconds"));
    }
    Ok(None)
}

/// Whether reads of two connections still wait when the clock is `seconds` later.
fn both_wait<R, L>(
    rt: &R,
    time: &Time,
    seconds: u64,
    (far, near): (&mut L, &mut L),
    (other_far, other_near): (&mut L, &mut L),
) -> (Option<bool>, Option<bool>)
where
    R: Threads + Wait + Clock + Sync,
    L: Source + Sink + Send,
{
    thread::join(
        rt,
        || waits(rt, time, seconds, far, near),
        || waits(rt, time, 0, other_far, other_near),
    )
}

/// Whether exactly one of two reads ended.
fn is_one(ended: (Option<bool>, Option<bool>)) -> bool {
    matches!(ended, (Some(true), Some(false)) | (Some(false), Some(true)))
}

/// What does not hold of two silent connections to which others come, first of all.
fn first_wrong_of_crowd<R, N>(
    rt: &R,
    time: &Time,
    net: &mut N,
    place: &str,
) -> Result<Option<&'static str>, Failed>
where
    R: Threads + Wait + Clock + Sync,
    N: Net,
{
    let mut listener = opened(net, place)?;
    let (mut far, mut near) = (net.connect(place)?, next_link(&mut listener)?);
    let (mut other_far, mut other_near) = (net.connect(place)?, next_link(&mut listener)?);
    let _caller = net.connect(place)?;
    let (one, other) = ((&mut far, &mut near), (&mut other_far, &mut other_near));
    if both_wait(rt, time, CROWDED_SECONDS - 1, one, other) != (Some(true), Some(true)) {
        return Ok(Some("no read ends before its seconds are over"));
    }
    let (one, other) = ((&mut far, &mut near), (&mut other_far, &mut other_near));
    if !is_one(both_wait(rt, time, CROWDED_SECONDS, one, other)) {
        return Ok(Some("one of two reads ends for one that waits"));
    }
    Ok(None)
}

/// Checks the connections of a network over the sockets of `later`, whose clock shows `time`.
fn check_by<R, C>(rt: &R, alloc: Global, time: &Time, later: C) -> Result<(), Fail>
where
    R: Threads + Wait + Clock + Sync + Abort,
    C: net::Net<Listener = TcpListener, Stream = TcpStream> + Clock + Copy + Eprint + Send,
{
    let mut net = TcpNet::new(later, alloc);
    let place = free_place(&later, alloc)?;
    assert_eq!(rt;
        first_wrong_of_one(rt, time, &mut net, place.as_str())?,
        None
    );
    let place = free_place(&later, alloc)?;
    assert_eq!(rt;
        first_wrong_of_crowd(rt, time, &mut net, place.as_str())?,
        None
    );
    Ok(())
}

/// The same over the sockets of `rt`.
fn check<R>(rt: &R, alloc: Global) -> Result<(), Fail>
where
    R: net::Net<Listener = TcpListener, Stream = TcpStream> + Threads + Wait + Clock + Sync + Abort,
{
    let chosen = Chosen {
        rt,
        time: Time::new(),
        stream: None,
    };
    check_by(rt, alloc, &chosen.time, &chosen)
}

#[test]
fn a_silent_connection_ends_by_a_stop_and_for_one_that_waits(rt: HostRuntime) -> Result<(), Fail> {
    check(&rt, rt.alloc())
}

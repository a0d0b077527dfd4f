//! A connection over TCP.
ghost use Rattle.std.specs.Prelude.{◌≡◌, None, IfOk, refl};
ghost use Rattle.outside_net.specs.Counts.{Rose};

use crate::link::Link;
use crate::sink::Sink;
use crate::source::Source;
use crate::tcp::HELD_SECONDS;
use crate::tcp::address::Address;
use crate::tcp::cause::Action;
use crate::tcp::log::{LinkLog, report_crowd};
use outside_disks::{Failed, Faulted, counted};
use std::alloc::Global;
use std::io;
use std::io::{Eprint, ErrorKind, Read, Write};
use std::net::{Shutdown, SocketAddr, TcpListener, TcpStream};
use std::sync::Arc;
use std::time::{Clock, Duration, Instant};

/// How long a read of an accepted connection waits for the peer, in seconds. `/server-info` announces this as the
/// time after which a silent client is disconnected. So no client that keeps to it is cut off, and one that left
/// silently frees its worker.
pub const READ_SECONDS: u64 = 1_800;

/// How long the peer of an accepted connection may be silent, in seconds, while another connection waits at its
/// address and no worker is free. Then one of the silent connections ends, and its worker accepts the one that waits.
pub const CROWDED_SECONDS: u64 = 5;

// How long a read of an accepted connection waits, in seconds, until it checks whether it waits on.
pub(super) const WAIT_SECONDS: u64 = 1;

/// How long a write waits for the peer to take anything, in seconds. A client that takes no byte of a reply for a
/// minute has left or is stuck, and frees its worker.
pub const WRITE_SECONDS: u64 = 60;

// How long `goodbye` reads what a peer still sends.
const GOODBYE_SECONDS: u64 = 2;

// The most bytes that `goodbye` reads, 8 MiB, except that it finishes its last read.
const GOODBYE_BYTES: usize = 8_388_608;

// The most bytes of one read of `goodbye`.
const GOODBYE_PIECE: usize = 32_768;

/// What an accepted connection knows of its address.
#[derive(Drop)]
pub(super) struct Origin {
    pub(super) listener: Arc<TcpListener, Global>,
    pub(super) address: Arc<Address, Global>,
}

impl Origin {
    // Returns whether a read that has waited for some seconds waits on. It does not after a stop's seconds, nor if it is
    // the first of the silent connections that makes room for one that waits.
    fn waits_on<R: Clock + Eprint>(&self, rt: &R, waited: Duration) -> bool {
        if waited >= Duration::from_secs(READ_SECONDS) || self.address.has_ended(rt) {
            return false;
        }
        waited < Duration::from_secs(CROWDED_SECONDS) || !self.makes_room(rt)
    }

    // Returns whether a connection of the address has to end for one that waits there. One is enough until a listener
    // has accepted.
    fn makes_room<R: Eprint>(&self, rt: &R) -> bool {
        if !self.address.is_crowded(&self.listener) {
            return false;
        }
        report_crowd(rt, &self.address);
        self.address.begin_freeing()
    }
}

/// A connection over TCP. A read or a write that waits too long counts an error.
#[derive(Drop)]
pub struct TcpLink<R> {
    pub(super) rt: R,
    pub(super) stream: TcpStream,
    pub(super) peer: Option<SocketAddr>,
    // `None` for a connection that this program made.
    pub(super) origin: Option<Origin>,
    pub(super) log: Option<LinkLog>,
    // The time of the first probe since the last read or write.
    pub(super) held_since: Option<Instant>,
    // What failed last.
    pub(super) cause: Option<(Action, io::Error)>,
    pub(super) faults: u64,
}

impl<R> TcpLink<R> {
    /// Returns a connection that this program made.
    pub(super) fn made(rt: R, stream: TcpStream, peer: Option<SocketAddr>) -> TcpLink<R>
        ensures { result.faults ≡ 0 }
    {
        TcpLink {
            rt,
            stream,
            peer,
            origin: None,
            log: None,
            held_since: None,
            cause: None,
            faults: 0,
        }
    }

    /// Returns a connection that was accepted.
    pub(super) fn accepted(
        rt: R,
        stream: TcpStream,
        peer: SocketAddr,
        origin: Origin,
        log: Option<LinkLog>,
    ) -> TcpLink<R>
        ensures { result.faults ≡ 0 }
    {
        TcpLink {
            rt,
            stream,
            peer: Some(peer),
            origin: Some(origin),
            log,
            held_since: None,
            cause: None,
            faults: 0,
        }
    }

    // Counts an error, and keeps it.
    fn fail(&mut self, action: Action, error: io::Error) -> Failed
        ensures { Rose self.old.faults self.new.faults }
    {
        self.cause = Some((action, error));
        counted(&mut self.faults)
    }

    /// Returns how long a read and a write wait for the peer until they check whether they wait on; `None` is without a
    /// limit.
    ///
    /// # Errors
    /// Returns an error if the system does not know the connection any more.
    pub fn timeouts(&self) -> io::Result<(Option<Duration>, Option<Duration>)> {
        Ok((self.stream.read_timeout()?, self.stream.write_timeout()?))
    }
}

// Sends what is written at once, so that the body of a reply never waits until its head is acknowledged. A connection
// that this program made waits for its peer without a limit.
pub(super) fn set_options(stream: &TcpStream, reads_wait: Option<Duration>) -> io::Result<()> {
    stream.set_nodelay(true)?;
    stream.set_read_timeout(reads_wait)?;
    stream.set_write_timeout(Some(Duration::from_secs(WRITE_SECONDS)))
}

// Returns whether the peer may still be there: neither an end nor an error has come from it. Does not wait, and
// leaves the bytes that have come. They hide an end that came after them.
fn is_there(stream: &TcpStream) -> io::Result<bool> {
    stream.set_nonblocking(true)?;
    let peeked = stream.peek(&mut [0]);
    stream.set_nonblocking(false)?;
    match peeked {
        Ok(n) => Ok(n > 0),
        Err(error) => Ok(matches!(error.kind(), ErrorKind::WouldBlock | ErrorKind::Interrupted)),
    }
}

impl<R: Clock + Eprint> TcpLink<R> {
    // Returns whether the probes since the last read or write span the limit, and the connection has to end for one
    // that waits. If the clock can't be read, this is not known, and false.
    fn is_held_too_long(&mut self) -> bool
        ensures { self.new.faults ≡ self.old.faults }
    {
        let Ok(now) = Instant::now(&self.rt) else {
            return false;
        };
        let Some(since) = self.held_since else {
            self.held_since = Some(now);
            return false;
        };
        let is_long = now.duration_since(since) >= Duration::from_secs(HELD_SECONDS);
        match &self.origin {
            Some(origin) => is_long && origin.makes_room(&self.rt),
            None => false,
        }
    }

    // Returns whether a read that began at `start` waits on. That of a connection that this program made has no limit
    // to begin with. If the clock can't be read, it waits no longer.
    fn waits_on(&self, start: Option<Instant>) -> bool {
        let spent = start.and_then(|start| start.elapsed(&self.rt).ok());
        match (&self.origin, spent) {
            (Some(origin), Some(waited)) => origin.waits_on(&self.rt, waited),
            _ => false,
        }
    }

    // Ends the writing side, and discards what the peer still sends until it ends. Otherwise a reset would make a
    // peer that is still sending lose the last reply.
    pub(super) fn goodbye(&mut self) {
        let limit = Duration::from_secs(GOODBYE_SECONDS);
        let Ok(start) = Instant::now(&self.rt) else {
            return;
        };
        if self.stream.shutdown(Shutdown::Write).is_err() {
            return;
        }
        let mut room = [0; GOODBYE_PIECE];
        let mut dropped = 0;
        while dropped < GOODBYE_BYTES {
            let Ok(spent) = start.elapsed(&self.rt) else {
                return;
            };
            let rest = limit.saturating_sub(spent);
            if rest.is_zero() || self.stream.set_read_timeout(Some(rest)).is_err() {
                return;
            }
            match self.stream.read(&mut room) {
                Ok(n) if n > 0 => dropped += n,
                _ => return,
            }
        }
    }
}

impl<R> Faulted for TcpLink<R> {
    ghost faults = { λ link. link.faults };
}

impl<R: Clock + Eprint> Source for TcpLink<R> {
    ghost left = { λ _. None };

    ghost beside_left = { λ _. None };

    // A stopped program that continues finds its waits interrupted: they begin again.
    fn read(&mut self, room: &mut [u8]) -> Result<usize, Failed> {
        self.held_since = None;
        let start = Instant::now(&self.rt).ok();
        for _ in 0..u64::MAX {
            match self.stream.read(room) {
                Ok(n) => {
                    if let Some(log) = &mut self.log {
                        log.note_read(&room[..n]);
                    }
                    return Ok(n);
                }
                Err(error) if error.kind() == ErrorKind::Interrupted => {}
                Err(error) => {
                    let is_wait = error.kind() == ErrorKind::WouldBlock;
                    if !(is_wait && self.waits_on(start)) {
                        return Err(self.fail(Action::Read, error));
                    }
                }
            }
        }
        Err(counted(&mut self.faults))
    }
}

impl<R: Clock + Eprint> Sink for TcpLink<R> {
    ghost taken = { λ _. None };

    ghost beside_taken = { λ _. None };

    fn write(&mut self, piece: &[u8]) -> Result<usize, Failed> {
        self.held_since = None;
        for _ in 0..u64::MAX {
            match self.stream.write(piece) {
                Ok(n) if n > 0 => {
                    if let Some(log) = &mut self.log {
                        log.note_written(&self.rt, piece, n);
                    }
                    return Ok(n);
                }
                Ok(_) => return Err(counted(&mut self.faults)),
                Err(error) if error.kind() == ErrorKind::Interrupted => {}
                Err(error) => return Err(self.fail(Action::Write, error)),
            }
        }
        Err(counted(&mut self.faults))
    }
}

impl<R: Clock + Eprint> Link for TcpLink<R> {
    fn probe(&mut self) -> Result<(), Failed> {
        if self.is_held_too_long() {
            return Err(counted(&mut self.faults));
        }
        match is_there(&self.stream) {
            Ok(true) => Ok(()),
            _ => Err(counted(&mut self.faults)),
        }
    }

    ghost read_leaves_taken = { λ _. refl };

    ghost write_leaves_left = { λ _. refl };
}

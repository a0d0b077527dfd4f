//! A runtime whose clock and connections a test chooses.

use std::fmt::Display;
use std::io::Eprint;
use std::net::{SocketAddr, TcpListener, TcpStream};
use std::sync::atomic::{AtomicU64, Ordering};
use std::time::{Clock, Duration};
use std::{io, net};

/// A time that a test sets forward, in seconds. Counts how often it is read.
#[derive(Drop)]
pub struct Time {
    seconds: AtomicU64,
    readings: AtomicU64,
}

impl Time {
    pub fn new() -> Time {
        Time {
            seconds: AtomicU64::new(0),
            readings: AtomicU64::new(0),
        }
    }

    /// Sets the time forward.
    pub fn pass(&self, seconds: u64) {
        self.seconds.fetch_add(seconds, Ordering::SeqCst);
    }

    /// How often the time was read.
    pub fn readings(&self) -> u64 {
        self.readings.load(Ordering::SeqCst)
    }

    fn read(&self) -> Duration {
        let seconds = self.seconds.load(Ordering::SeqCst);
        self.readings.fetch_add(1, Ordering::SeqCst);
        Duration::from_secs(seconds)
    }
}

/// A runtime whose monotonic clock shows `time`. If there is a `stream`, then all its connections are handles of this
/// one socket, so that a test can read and set the socket's options.
#[derive(Drop)]
pub struct Chosen<'a, R> {
    pub rt: &'a R,
    pub time: Time,
    pub stream: Option<&'a TcpStream>,
}

impl<R: Clock> Clock for Chosen<'_, R> {
    fn monotonic(&self) -> io::Result<Duration> {
        Ok(self.time.read())
    }

    fn since_1970(&self) -> io::Result<Duration> {
        self.rt.since_1970()
    }
}

// What is written on standard error is dropped.
impl<R> Eprint for Chosen<'_, R> {
    fn eprint<D: Display + Drop>(&self, _value: D) -> io::Result<()> {
        Ok(())
    }

    fn eprintln<D: Display + Drop>(&self, _value: D) -> io::Result<()> {
        Ok(())
    }
}

impl<R: net::Net<Listener = TcpListener, Stream = TcpStream>> net::Net for Chosen<'_, R> {
    type Stream = TcpStream;

    type Listener = TcpListener;

    fn bind(&self, addr: SocketAddr) -> io::Result<TcpListener> {
        self.rt.bind(addr)
    }

    fn connect(&self, addr: SocketAddr) -> io::Result<TcpStream> {
        match self.stream {
            Some(stream) => stream.try_clone(),
            None => self.rt.connect(addr),
        }
    }

    fn connect_timeout(&self, addr: SocketAddr, timeout: Duration) -> io::Result<TcpStream> {
        match self.stream {
            Some(stream) => stream.try_clone(),
            None => self.rt.connect_timeout(addr, timeout),
        }
    }
}

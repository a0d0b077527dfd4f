//! Waits for a connection at a listener, and continues after errors that end at most one connection.
use crate::tcp::link::{WAIT_SECONDS, set_options};
use std::io::ErrorKind;
use std::net::{SocketAddr, TcpListener, TcpStream};
use std::time::{Clock, Duration};
use std::{io, thread};

// Most retries in a row if the system lacks descriptors, buffers or memory.
const MOST_PAUSES: u32 = 60;

// The length of each of these pauses.
const PAUSE_SECONDS: u64 = 1;

// Linux's numbers of errors that concern one connection, or none: EINTR, EPERM (a rule of the firewall), ENONET,
// EPROTO, ENOPROTOOPT, EOPNOTSUPP, ENETDOWN, ENETUNREACH, ECONNABORTED, ECONNRESET, ETIMEDOUT, EHOSTDOWN,
// EHOSTUNREACH.
static LINK_ERRORS: [i32; 13] = [1, 4, 64, 71, 92, 95, 100, 101, 103, 104, 110, 112, 113];

// Those for a lack of memory, descriptors or buffers: ENOMEM, ENFILE, EMFILE, ENOBUFS.
static WANTS: [i32; 4] = [12, 23, 24, 105];

/// What a listener does after an error of `accept`.
#[derive(Clone, Copy, PartialEq, Eq)]
pub enum Remedy {
    /// It waits for the next connection at once: the error was one connection's.
    TryAgain,
    /// It pauses for a second: the system lacks memory, descriptors or buffers.
    PauseFirst,
    /// It fails.
    GiveUp,
}

/// Returns what a listener does after an error of `accept`, by the error's number in Linux.
pub fn remedy_of(error: &io::Error) -> Remedy {
    match error.raw_os_error() {
        Some(number) if LINK_ERRORS.contains(&number) => Remedy::TryAgain,
        Some(number) if WANTS.contains(&number) => Remedy::PauseFirst,
        _ => Remedy::GiveUp,
    }
}

// Returns the next connection whose options can be set, with its peer, or the error by which the listener fails.
pub(super) fn next_stream(
    clock: &impl Clock,
    listener: &TcpListener,
) -> io::Result<(TcpStream, SocketAddr)> {
    let mut pauses = 0u32;
    for _ in 0..u64::MAX {
        match listener.accept() {
            Ok((stream, peer)) => {
                let reads_wait = Some(Duration::from_secs(WAIT_SECONDS));
                if set_options(&stream, reads_wait).is_ok() {
                    return Ok((stream, peer));
                }
                pauses = 0;
            }
            Err(error) => match remedy_of(&error) {
                Remedy::TryAgain => pauses = 0,
                Remedy::PauseFirst if pauses < MOST_PAUSES => {
                    pauses += 1;
                    thread::sleep(clock, Duration::from_secs(PAUSE_SECONDS));
                }
                _ => return Err(error),
            },
        }
    }
    Err(io::Error::from(ErrorKind::Other))
}

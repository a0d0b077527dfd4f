//! What the listeners and the accepted connections of one address share.
use libc::net::{POLLIN, poll};
use libc::types::pollfd;
use std::alloc::{AllocError, Global};
use std::net::{SocketAddr, TcpListener};
use std::os::fd::AsRawFd;
use std::sync::Arc;
use std::sync::atomic::{AtomicBool, AtomicU64, Ordering};
use std::time::Clock;

// How long a read may wait after a stop, in milliseconds.
const STOP_MILLIS: u64 = 5_000;

// The time of a stop that has not come.
const NEVER: u64 = u64::MAX;

/// An address at which this program listens, with its number of listeners.
#[derive(Drop)]
pub(super) struct Address {
    pub(super) place: SocketAddr,
    pub(super) number: u32,
    // How many of its listeners wait for a connection.
    waiting: AtomicU64,
    // Whether a connection was ended for one that waits, which no listener has accepted yet.
    freeing: AtomicBool,
    // Whether a line says that all workers are busy, and none has been free since.
    reported: AtomicBool,
    // From when on a read waits no longer, by the monotonic clock in milliseconds.
    reads_end: AtomicU64,
}

impl Address {
    /// Returns an address of which nothing is known yet.
    pub(super) fn new(place: SocketAddr, number: u32) -> Address {
        Address {
            place,
            number,
            waiting: AtomicU64::new(0),
            freeing: AtomicBool::new(false),
            reported: AtomicBool::new(false),
            reads_end: AtomicU64::new(NEVER),
        }
    }

    /// Notes that a listener begins to wait. If no connection waits, a worker is free.
    pub(super) fn begin_wait(&self, listener: &TcpListener) {
        self.waiting.fetch_add(1, Ordering::SeqCst);
        if !has_caller(listener) {
            self.reported.store(false, Ordering::SeqCst);
        }
    }

    /// Notes that a listener waits no more, since it accepted a connection or failed.
    pub(super) fn end_wait(&self) {
        self.waiting.fetch_sub(1, Ordering::SeqCst);
        self.freeing.store(false, Ordering::SeqCst);
    }

    /// Returns how many listeners wait for a connection.
    pub(super) fn free_workers(&self) -> u64 {
        self.waiting.load(Ordering::SeqCst)
    }

    /// Returns whether a connection waits at the listener, and none of the address's listeners waits for one. After a
    /// stop it is false, since only those that wake listeners are expected then.
    pub(super) fn is_crowded(&self, listener: &TcpListener) -> bool {
        let is_stopped = self.reads_end.load(Ordering::SeqCst) != NEVER;
        !is_stopped && self.free_workers() == 0 && has_caller(listener)
    }

    /// Returns whether a connection is to be ended for one that waits: the first time since a listener accepted one.
    pub(super) fn begin_freeing(&self) -> bool {
        !self.freeing.swap(true, Ordering::SeqCst)
    }

    /// Returns whether no line has said that all workers are busy since one was free.
    pub(super) fn begin_report(&self) -> bool {
        !self.reported.swap(true, Ordering::SeqCst)
    }

    /// Lets the reads of the address's connections wait for five more seconds. Later stops change nothing. If the
    /// clock can't be read, they wait no longer.
    pub(super) fn stop(&self, clock: &impl Clock) {
        let end = match millis(clock) {
            Some(now) => now.saturating_add(STOP_MILLIS),
            None => 0,
        };
        let order = Ordering::SeqCst;
        let _first = self.reads_end.compare_exchange(NEVER, end, order, order);
    }

    /// Returns whether a stop's seconds are over. If the clock can't be read, they are once a stop has come.
    pub(super) fn has_ended(&self, clock: &impl Clock) -> bool {
        let end = self.reads_end.load(Ordering::SeqCst);
        end != NEVER && millis(clock).is_none_or(|now| now >= end)
    }
}

// Returns the time of the monotonic clock, if it can be read.
fn millis(clock: &impl Clock) -> Option<u64> {
    let now = clock.monotonic().ok()?;
    u64::try_from(now.as_millis()).ok()
}

// Returns whether a connection waits to be accepted. Does not wait.
fn has_caller(listener: &TcpListener) -> bool {
    let mut asked = [pollfd {
        fd: listener.as_raw_fd(),
        events: POLLIN,
        revents: 0,
    }];
    poll(&mut asked, 0) == 1
}

/// Returns clones of the addresses.
pub(super) fn clones(
    alloc: Global,
    addresses: &[Arc<Address, Global>],
) -> Result<Vec<Arc<Address, Global>>, AllocError> {
    let mut all = Vec::new(alloc);
    for address in addresses {
        all.push(Arc::try_clone(address)?)?;
    }
    Ok(all)
}

//! Connections in memory whose calls wait for bytes on the connection of another worker, and listeners at which they
//! come. Contracts know nothing of their bytes.
ghost use Rattle.std.specs.Prelude.{◌≡◌, ◌+◌, ◌<◌, ◌≤◌, ◌^◌, min, None, refl};
ghost use Rattle.outside_net.specs.Counts.{Rose};

use outside_net::{Failed, Faulted, Link, Listener, MemLink, Sink, Source};
use std::sync::atomic::{AtomicU64, Ordering};
use std::thread;

// How often a call checks whether it may go on, before it fails and counts an error. These checks take longer than any
// turn, and less than a test may take.
const MANY_LOOKS: u64 = 10_000_000;

/// Counts of what was done on connections, which several connections may share.
#[derive(Clone, Copy)]
pub struct Counts<'a> {
    /// The count that calls wait for: as a rule, how many bytes were written on the other worker's connection.
    pub other: &'a AtomicU64,
    /// How many bytes were written on this connection.
    pub own: &'a AtomicU64,
    /// How often this connection was probed.
    pub probes: &'a AtomicU64,
}

/// A connection that is to come, and how its calls wait for the connection of another worker.
#[derive(Drop)]
pub struct Gated<'a> {
    pub link: MemLink,
    /// Which count of the other worker must be reached before each read, in order. Further reads do not wait.
    pub reads_wait: &'static [u64],
    pub writes_wait: &'static [u64],
    pub counts: Counts<'a>,
}

impl Gated<'_> {
    /// Waits until the other worker's count is `wanted`. Returns false after `MANY_LOOKS` checks.
    fn may_go_on(&self, wanted: u64) -> bool {
        for _ in 0..MANY_LOOKS {
            if self.counts.other.load(Ordering::SeqCst) >= wanted {
                return true;
            }
            thread::yield_now();
        }
        false
    }

    fn wrote(&self, n: usize) {
        self.counts.own.fetch_add(n as u64, Ordering::SeqCst);
    }
}

/// Returns which count a call waits for, after `calls` other calls.
fn wanted(waits: &[u64], calls: usize) -> u64 {
    match waits.get(calls) {
        Some(count) => *count,
        None => 0,
    }
}

/// Lets others fall asleep.
fn stay() {
    for _ in 0..100 {
        thread::yield_now();
    }
}

#[derive(Drop)]
pub struct GatedLink<'a> {
    gated: Gated<'a>,
    reads: usize,
    writes: usize,
    faults: u64,
}

fn failed(faults: &mut u64) -> Failed
    ensures { Rose faults.old faults.new }
{
    *faults = faults.saturating_add(1);
    Failed
}

impl Faulted for GatedLink<'_> {
    ghost faults = { λ link. link.faults };
}

impl Source for GatedLink<'_> {
    ghost left = { λ _. None };

    ghost beside_left = { λ _. None };

    fn read(&mut self, room: &mut [u8]) -> Result<usize, Failed> {
        let count = wanted(self.gated.reads_wait, self.reads);
        self.reads = self.reads.saturating_add(1);
        if !self.gated.may_go_on(count) {
            return Err(failed(&mut self.faults));
        }
        if count > 0 {
            stay();
        }
        match self.gated.link.read(room) {
            Ok(n) => Ok(n),
            Err(Failed) => Err(failed(&mut self.faults)),
        }
    }
}

impl Sink for GatedLink<'_> {
    ghost taken = { λ _. None };

    ghost beside_taken = { λ _. None };

    fn write(&mut self, piece: &[u8]) -> Result<usize, Failed> {
        let count = wanted(self.gated.writes_wait, self.writes);
        self.writes = self.writes.saturating_add(1);
        if !self.gated.may_go_on(count) {
            return Err(failed(&mut self.faults));
        }
        match self.gated.link.write(piece) {
            Ok(n) => {
                self.gated.wrote(n);
                Ok(n)
            }
            Err(Failed) => Err(failed(&mut self.faults)),
        }
    }
}

impl Link for GatedLink<'_> {
    fn probe(&mut self) -> Result<(), Failed> {
        self.gated.counts.probes.fetch_add(1, Ordering::SeqCst);
        match self.gated.link.probe() {
            Ok(()) => Ok(()),
            Err(Failed) => Err(failed(&mut self.faults)),
        }
    }

    ghost read_leaves_taken = { λ _. refl };

    ghost write_leaves_left = { λ _. refl };
}

/// A listener at which one connection comes, and then no more.
#[derive(Drop)]
pub struct GatedListener<'a> {
    pub coming: Option<Gated<'a>>,
}

impl Faulted for GatedListener<'_> {
    ghost faults = { λ _. 0 };
}

impl<'a> Listener for GatedListener<'a> {
    type L = GatedLink<'a>;

    ghost coming = { λ _. None };

    ghost written = { λ _. None };

    fn accept(&mut self) -> Result<Option<GatedLink<'a>>, Failed> {
        match self.coming.take() {
            Some(gated) => Ok(Some(GatedLink {
                gated,
                reads: 0,
                writes: 0,
                faults: 0,
            })),
            None => Ok(None),
        }
    }

    fn wake_acceptors(&mut self) {}

    fn done(&mut self, _link: GatedLink<'a>) {}
}

//! Where handles sleep until their turn. No clause depends on it: a ticket decides whose turn it is, and a handle
//! that passes the gate finds its ticket served.
use std::sync::Wait;
use std::sync::atomic::{AtomicU64, Ordering};

// The values of the word: nobody is inside; one is; one is, and others may sleep.
const OPEN: u64 = 0;

const SHUT: u64 = 1;

const WAITED: u64 = 2;

/// Lets one thread inside at a time.
#[derive(Drop)]
pub struct Gate {
    word: AtomicU64,
}

impl Gate {
    pub(crate) fn new() -> Gate {
        Gate {
            word: AtomicU64::new(OPEN),
        }
    }

    /// Enters, and shuts the gate.
    pub(crate) fn enter<R: Wait>(&self, rt: &R) {
        let word = &self.word;
        if word
            .compare_exchange(OPEN, SHUT, Ordering::SeqCst, Ordering::SeqCst)
            .is_ok()
        {
            return;
        }
        for _ in rt.forever() {
            if word.swap(WAITED, Ordering::SeqCst) == OPEN {
                return;
            }
            word.park(rt, WAITED as u32);
        }
    }

    /// Opens the gate, and wakes one thread that sleeps.
    pub(crate) fn leave(&self) {
        if self.word.swap(OPEN, Ordering::SeqCst) == WAITED {
            self.word.wake_one();
        }
    }
}

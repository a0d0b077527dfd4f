//! A bell that wakes threads that wait for the history to grow. No clause depends on it.
use std::sync::{Condvar, Mutex, Wait};
use std::time::{Clock, Duration};

/// The greatest history length that was rung.
#[derive(Drop)]
pub struct Bell {
    rung: Mutex<u64>,
    changed: Condvar,
}

impl Bell {
    /// Returns a bell that was not rung, at 0. Does not allocate.
    pub fn new() -> Bell {
        Bell {
            rung: Mutex::new(0),
            changed: Condvar::new(),
        }
    }

    /// Keeps the greater of what was rung and `point`, and wakes all that wait. Does not allocate.
    pub fn ring<R: Wait>(&self, rt: &R, point: u64) {
        let mut rung = self.rung.lock(rt);
        *rung = point.max(*rung);
        self.changed.notify_all();
    }

    /// Sleeps until a length above `point` is rung.
    pub fn wait<R: Wait>(&self, rt: &R, point: u64) {
        let rung = self.rung.lock(rt);
        self.changed.wait_while(rt, rung, |rung| *rung <= point);
    }

    /// Sleeps until a length above `point` is rung, for at most `limit`. Earlier rings count, so none is lost.
    /// Returns at once if the clock can't be read.
    pub fn wait_for<R: Wait + Clock>(&self, rt: &R, point: u64, limit: Duration) {
        let rung = self.rung.lock(rt);
        self.changed
            .wait_timeout_while(rt, rung, limit, |rung| *rung <= point);
    }
}

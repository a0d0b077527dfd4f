//! What works concurrently with the workers of a share.
ghost use Rattle.share_lock.specs.Passes.{LockId, lock_id};

use share_core::Share;
use share_lock::{Bell, ShareLock};
use std::alloc::Global;
use std::sync::Wait;
use std::time::Clock;

/// Works concurrently with the workers of a share, over the same lock and the same bell.
pub trait Partner {
    // Whether it may begin to work over this lock.
    ghost ready: { LockId → Self → Type 0 };

    // How it was before and is after its work over this lock.
    ghost worked: { LockId → Self → Self → Type 0 };

    /// Works to its end. May wait for others.
    fn work<R: Wait + Clock>(&mut self, rt: &R, alloc: Global, lock: &ShareLock<Share>, bell: &Bell)
        requires { ready (lock_id lock.now) self.old }
        ensures { worked (lock_id lock.now) self.old self.new };
}

//! Workers in their own threads.
ghost use Rattle.std.specs.Prelude.{◌≡◌, ℕ, ◌<◌, All, length, slice_index_or};
ghost use Rattle.std.specs.Thread.{IsSync};
ghost use Rattle.share_lock.specs.Passes.{lock_id, IsReady};
ghost use Rattle.lock_trials.specs.Worked.{HasWorked};

use crate::numbers::Numbers;
use crate::work::{Worker, work};
use share_lock::ShareLock;
use std::sync::Wait;
use std::thread;
use std::thread::Threads;

/// Takes the turns of all workers concurrently, and returns when all have ended.
pub fn work_all<R: Threads + Wait + Sync>(
    rt: &R,
    lock: &ShareLock<Numbers>,
    workers: &mut [Worker],
    threads: usize,
)
    requires threads { 0 < threads }
    requires ready { All (λ w. IsReady (lock_id lock.now) w.pass) workers.old }
    ensures { (k : ℕ) (d : Worker) → k < length workers.old
        → HasWorked (lock_id lock.now) (slice_index_or workers.old k d)
        (slice_index_or workers.new k d) }
{
    thread::for_each_mut(
        rt,
        workers,
        threads,
        &|_place: usize, worker: &mut Worker|
            requires { IsSync R.row × IsReady (lock_id lock.now) worker.old.pass }
            ensures { HasWorked (lock_id lock.entry.now) worker.old worker.new }
        { work(rt, lock, worker) },
    );
}

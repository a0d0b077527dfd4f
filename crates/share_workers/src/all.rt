//! Runs many workers at once.
ghost use Rattle.std.specs.Prelude.{◌≡◌, ◌<◌, All, false, vec_capacity};
ghost use Rattle.std.specs.List.{AllZip};
ghost use Rattle.std.specs.Thread.{IsSync};
ghost use Rattle.share_lock.specs.Passes.{lock_id, known, IsReady};
ghost use Rattle.share_server.specs.Kept.{KeepsEdits};
ghost use Rattle.share_workers.specs.Ends.{is_worker_loss};
ghost use Rattle.share_workers.specs.Workers.{MayBegin, KeepsRole, WorksToEnd};

use crate::worker::Worker;
use crate::working::{keep_worker, serve_worker};
use edit_keeping::Keeps;
use outside_net::Listener;
use share_core::Share;
use share_lock::{Bell, ShareLock};
use std::alloc::Global;
use std::sync::Wait;
use std::thread;
use std::thread::Threads;
use std::time::Clock;

/// Lets each worker serve its connections, each in its own thread, and returns when all have ended.
pub fn serve_all<D: Listener + Drop + Send, R: Threads + Wait + Clock + Sync>(
    rt: &R,
    alloc: Global,
    lock: &ShareLock<Share>,
    bell: &Bell,
    workers: &mut Vec<Worker<D>>,
)
    requires begin { All (MayBegin (lock_id lock.now)) workers.old.items }
    ensures ready { All (λ w. IsReady (lock_id lock.now) w.pass) workers.new.items }
    ensures roles { AllZip KeepsRole workers.old.items workers.new.items }
    ensures served { AllZip (WorksToEnd D.Listener) workers.old.items workers.new.items }
    ensures whole { All (λ w. is_worker_loss w.end ≡ false) workers.new.items }
    ensures room { vec_capacity workers.new ≡ vec_capacity workers.old }
{
    let threads = workers.len().max(1);
    serve_each(rt, alloc, lock, bell, workers.as_mut_slice(), threads);
}

/// Lets `worker` serve its connections as `keep_worker` does, with `keeper`, and at the same time each of `workers` as
/// `serve_all` does. Returns when all have ended.
pub fn serve_kept<D: Listener + Drop + Send, F: Keeps + Send, R: Threads + Wait + Clock + Sync>(
    rt: &R,
    alloc: Global,
    lock: &ShareLock<Share>,
    bell: &Bell,
    workers: &mut Vec<Worker<D>>,
    worker: &mut Worker<D>,
    keeper: &mut F,
)
    requires begin { All (MayBegin (lock_id lock.now)) workers.old.items }
    requires keeper_begins { MayBegin (lock_id lock.now) worker.old }
    requires going { F.is_lost keeper.old ≡ false }
    ensures ready { All (λ w. IsReady (lock_id lock.now) w.pass) workers.new.items }
    ensures roles { AllZip KeepsRole workers.old.items workers.new.items }
    ensures served { AllZip (WorksToEnd D.Listener) workers.old.items workers.new.items }
    ensures whole { All (λ w. is_worker_loss w.end ≡ false) workers.new.items }
    ensures keeper_ready { IsReady (lock_id lock.now) worker.new.pass }
    ensures keeper_role { KeepsRole worker.old worker.new }
    ensures keeper_served { WorksToEnd D.Listener worker.old worker.new }
    ensures keeping { KeepsEdits F.Keeps keeper.old keeper.new
        (known worker.old.pass) (known worker.new.pass) (is_worker_loss worker.new.end) }
{
    serve_beside(
        rt,
        alloc,
        lock,
        bell,
        workers.as_mut_slice(),
        worker,
        keeper,
    );
}

fn serve_beside<D: Listener + Drop + Send, F: Keeps + Send, R: Threads + Wait + Clock + Sync>(
    rt: &R,
    alloc: Global,
    lock: &ShareLock<Share>,
    bell: &Bell,
    workers: &mut [Worker<D>],
    worker: &mut Worker<D>,
    keeper: &mut F,
)
    requires begin { All (MayBegin (lock_id lock.now)) workers.old }
    requires keeper_begins { MayBegin (lock_id lock.now) worker.old }
    requires going { F.is_lost keeper.old ≡ false }
    ensures ready { All (λ w. IsReady (lock_id lock.now) w.pass) workers.new }
    ensures roles { AllZip KeepsRole workers.old workers.new }
    ensures served { AllZip (WorksToEnd D.Listener) workers.old workers.new }
    ensures whole { All (λ w. is_worker_loss w.end ≡ false) workers.new }
    ensures keeper_ready { IsReady (lock_id lock.now) worker.new.pass }
    ensures keeper_role { KeepsRole worker.old worker.new }
    ensures keeper_served { WorksToEnd D.Listener worker.old worker.new }
    ensures keeping { KeepsEdits F.Keeps keeper.old keeper.new
        (known worker.old.pass) (known worker.new.pass) (is_worker_loss worker.new.end) }
{
    // The first closure goes to the thread.
    thread::join_mut(
        rt,
        &mut ||
            requires { IsSync R.row × MayBegin (lock_id lock.now) worker.now
                × (F.is_lost keeper.now ≡ false) }
            ensures { IsReady (lock_id lock.entry.now) worker.exit.now.pass
                × KeepsRole worker.entry.now worker.exit.now
                × WorksToEnd D.Listener worker.entry.now worker.exit.now
                × KeepsEdits F.Keeps keeper.entry.now keeper.exit.now
                (known worker.entry.now.pass) (known worker.exit.now.pass)
                (is_worker_loss worker.exit.now.end) }
        { keep_worker(rt, alloc, lock, bell, worker, keeper) },
        &mut ||
            requires { IsSync R.row × All (MayBegin (lock_id lock.now)) workers.now }
            ensures { All (λ w. IsReady (lock_id lock.entry.now) w.pass) workers.exit.now
                × AllZip KeepsRole workers.entry.now workers.exit.now
                × AllZip (WorksToEnd D.Listener) workers.entry.now workers.exit.now
                × All (λ w. is_worker_loss w.end ≡ false) workers.exit.now }
        {
            let threads = workers.len().max(1);
            serve_each(rt, alloc, lock, bell, workers, threads)
        },
    );
}

/// Lets each worker serve its connections, in at most `threads` threads.
pub(crate) fn serve_each<D: Listener + Drop + Send, R: Threads + Wait + Clock + Sync>(
    rt: &R,
    alloc: Global,
    lock: &ShareLock<Share>,
    bell: &Bell,
    workers: &mut [Worker<D>],
    threads: usize,
)
    requires threads { 0 < threads }
    requires begin { All (MayBegin (lock_id lock.now)) workers.old }
    ensures ready { All (λ w. IsReady (lock_id lock.now) w.pass) workers.new }
    ensures roles { AllZip KeepsRole workers.old workers.new }
    ensures served { AllZip (WorksToEnd D.Listener) workers.old workers.new }
    ensures whole { All (λ w. is_worker_loss w.end ≡ false) workers.new }
{
    thread::for_each_mut(
        rt,
        workers,
        threads,
        &|_place: usize, worker: &mut Worker<D>|
            requires { IsSync R.row × MayBegin (lock_id lock.now) worker.old }
            ensures { IsReady (lock_id lock.entry.now) worker.new.pass
                × KeepsRole worker.old worker.new
                × WorksToEnd D.Listener worker.old worker.new
                × (is_worker_loss worker.new.end ≡ false) }
        { serve_worker(rt, alloc, lock, bell, worker) },
    );
}

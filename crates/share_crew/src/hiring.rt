//! Makes workers for listeners.

ghost use Rattle.std.specs.Prelude.{◌≡◌, ◌<◌, ◌≤◌, ◌+◌, [], vec_len, vec_capacity};
ghost use Rattle.share_lock.specs.Known.{fresh};
ghost use Rattle.share_lock.specs.Passes.{lock_id, passes_of, known, IsReady};
ghost use Rattle.share_crew.specs.Crews.{AddsWorkers};

use share_asks::Role;
use share_core::Share;
use share_lock::{Pass, ShareLock};
use share_workers::{Worker, WorkerEnd};
use std::alloc::Global;
use std::sync::Wait;

/// Appends a worker for each listener, with its own lock handle. `crew` has the capacity for all of them.
pub fn add_workers<D: Drop, R: Wait>(
    rt: &R,
    alloc: Global,
    lock: &ShareLock<Share>,
    first: &mut Pass<Share>,
    listeners: Vec<D>,
    role: Role,
    crew: &mut Vec<Worker<D>>,
)
    requires ready { IsReady (lock_id lock.now) first.old }
    requires room { vec_len crew.old + vec_len listeners ≤ vec_capacity crew.old }
    ensures ready { IsReady (lock_id lock.now) first.new }
    ensures pass { known first.new ≡ known first.old }
    ensures hired { AddsWorkers (lock_id lock.now)
        (known first.old) role listeners.items crew.old.items crew.new.items }
    ensures len { vec_len crew.new ≡ vec_len crew.old + vec_len listeners }
    ensures room { vec_capacity crew.new ≡ vec_capacity crew.old }
{
    for listener in listeners {
        let pass = new_pass(rt, lock, first);
        crew.push_reserved(new_worker(alloc, pass, listener, role));
    }
}

// Returns a new lock handle, for a worker that has not begun.
fn new_pass<R: Wait>(rt: &R, lock: &ShareLock<Share>, first: &mut Pass<Share>) -> Pass<Share>
    requires ready { IsReady (lock_id lock.now) first.old }
    ensures first { IsReady (lock_id lock.now) first.new }
    ensures same { known first.new ≡ known first.old }
    ensures ready { IsReady (lock_id lock.now) result }
    ensures pass { known result ≡ fresh (known result).number (known first.old).settings
        (known first.old).seen }
    ensures some { 1 ≤ (known result).number }
    ensures few { (known result).number < passes_of lock.now }
{
    lock.split(rt, first).unwrap()
}

// Returns a worker that has not begun.
fn new_worker<D>(alloc: Global, pass: Pass<Share>, listener: D, role: Role) -> Worker<D>
    ensures pass { result.pass ≡ pass }
    ensures listener { result.listener ≡ listener }
    ensures role { result.role ≡ role }
    ensures unreported { result.reports.items ≡ [] }
    ensures running { result.end ≡ WorkerEnd.Running }
{
    Worker {
        pass,
        listener,
        role,
        reports: Vec::new(alloc),
        end: WorkerEnd::Running,
    }
}

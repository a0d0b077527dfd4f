//! A crew of workers that share one list, from its opening to the list that they leave.
ghost use Rattle.std.specs.Prelude.{◌≡◌, ◌+◌, ◌<◌, ◌^◌, All, IfOk};
ghost use Rattle.share_lock.specs.Passes.{lock_id, IsReady};

use crate::gather::join_all;
use crate::numbers::Numbers;
use crate::threads::work_all;
use crate::work::Worker;
use share_lock::{Pass, ShareLock};
use std::alloc::{AllocError, Global};
use std::sync::Wait;
use std::thread::Threads;

/// Returns `count` workers, each with a handle that is split from the first.
pub fn new_workers<R: Wait>(
    rt: &R,
    alloc: Global,
    lock: &ShareLock<Numbers>,
    first: &mut Pass<Numbers>,
    count: u32,
    turns: u64,
) -> Result<Vec<Worker>, AllocError>
    requires ready { IsReady (lock_id lock.now) first.old }
    ensures ready { IsReady (lock_id lock.now) first.new }
    ensures made { IfOk result (λ v. All (λ w. IsReady (lock_id lock.now) w.pass) v.items) }
{
    let mut workers = Vec::new(alloc);
    for _ in 0..count {
        let pass = lock.split(rt, first)?;
        workers.push(Worker {
            pass,
            turns,
            added: 0,
        })?;
    }
    Ok(workers)
}

/// Returns the workers' handles.
fn passes_of(
    alloc: Global,
    lock: &ShareLock<Numbers>,
    workers: Vec<Worker>,
) -> Result<Vec<Pass<Numbers>>, AllocError>
    requires ready { All (λ w. IsReady (lock_id lock.now) w.pass) workers.items }
    ensures ready { IfOk result (λ v. All (λ p. IsReady (lock_id lock.now) p) v.items) }
{
    let mut passes = Vec::new(alloc);
    for worker in workers {
        passes.push(worker.pass)?;
    }
    Ok(passes)
}

/// Opens an empty list, lets each of `count` workers add its numbers in its own thread, and returns the list.
pub fn crew<R: Threads + Wait + Sync>(
    rt: &R,
    alloc: Global,
    count: u32,
    turns: u64,
) -> Result<Numbers, AllocError>
    requires { count + 1 < 2 ^ 32 }
{
    let (lock, mut first) = ShareLock::open(alloc, Numbers::new(alloc), count + 1)?;
    let mut workers = new_workers(rt, alloc, &lock, &mut first, count, turns)?;
    work_all(rt, &lock, workers.as_mut_slice(), count as usize + 1);
    let passes = passes_of(alloc, &lock, workers)?;
    Ok(join_all(rt, &lock, first, passes))
}

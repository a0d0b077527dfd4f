//! Turns per second that change nothing, at a lock and at a `std` Mutex.
ghost use Rattle.std.specs.Prelude.{All};
ghost use Rattle.std.specs.Thread.{IsSync};
ghost use Rattle.share_lock.specs.Passes.{lock_id, IsReady};

use crate::crew::new_workers;
use crate::numbers::Numbers;
use crate::work::Worker;
use share_lock::ShareLock;
use std::alloc::Global;
use std::sync::{Mutex, Wait};
use std::thread::Threads;
use std::time::{Clock, Duration, Instant};
use std::{io, thread};

const THREADS: usize = 8;

const TURNS: u64 = 100_000;

// Takes turns that add nothing.
fn idle<R: Wait>(rt: &R, lock: &ShareLock<Numbers>, worker: &mut Worker)
    requires { IsReady (lock_id lock.now) worker.old.pass }
    ensures { IsReady (lock_id lock.now) worker.new.pass }
{
    for _ in 0..TURNS {
        let turn = lock.take(rt, &mut worker.pass);
        lock.give(turn);
    }
}

// Takes the same number of turns at a list under a Mutex.
fn idle_at_mutex<R: Wait>(rt: &R, list: &Mutex<Numbers>) {
    for _ in 0..TURNS {
        drop(list.lock(rt));
    }
}

fn idle_all<R: Threads + Wait + Sync>(rt: &R, lock: &ShareLock<Numbers>, workers: &mut [Worker])
    requires { All (λ w. IsReady (lock_id lock.now) w.pass) workers.old }
{
    thread::for_each_mut(
        rt,
        workers,
        THREADS,
        &|_place: usize, worker: &mut Worker|
            requires { IsSync R.row × IsReady (lock_id lock.now) worker.old.pass }
            ensures { IsReady (lock_id lock.entry.now) worker.new.pass }
        { idle(rt, lock, worker) },
    );
}

// Returns the time of the lock's turns.
fn lock_time<R: Threads + Wait + Sync + Clock>(rt: &R, alloc: Global) -> io::Result<Duration> {
    let (lock, mut first) = ShareLock::open(alloc, Numbers::new(alloc), THREADS as u32 + 1)?;
    let mut workers = new_workers(rt, alloc, &lock, &mut first, THREADS as u32, TURNS)?;
    let begin = Instant::now(rt)?;
    idle_all(rt, &lock, workers.as_mut_slice());
    begin.elapsed(rt)
}

// Returns the time of the Mutex's turns.
fn mutex_time<R: Threads + Wait + Sync + Clock>(rt: &R, alloc: Global) -> io::Result<Duration> {
    let list = Mutex::new(Numbers::new(alloc));
    let mut places = [0u8; THREADS];
    let begin = Instant::now(rt)?;
    thread::for_each_mut(
        rt,
        &mut places,
        THREADS,
        &|_place: usize, _one: &mut u8| { idle_at_mutex(rt, &list) },
    );
    begin.elapsed(rt)
}

/// Prints the turns per second of both, in this run.
pub fn print_rates<R: Threads + Wait + Sync + Clock + Print>(
    rt: &R,
    alloc: Global,
) -> io::Result<()> {
    let turns = THREADS as f64 * TURNS as f64;
    let lock = lock_time(rt, alloc)?.as_secs_f64();
    let mutex = mutex_time(rt, alloc)?.as_secs_f64();
    println!(rt;
        "lock {:.0} turns/s, mutex {:.0} turns/s, ratio {:.2}",
        turns / lock,
        turns / mutex,
        mutex / lock
    )
}

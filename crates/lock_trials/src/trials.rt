//! Trials of the lock and of the bell: two handles, threads that take turns, and threads that wait.

ghost use Rattle.std.specs.Prelude.{◌+◌, ◌<◌, ◌^◌, All};
ghost use Rattle.share_lock.specs.Passes.{lock_id, IsReady};

use crate::crew::{crew, new_workers};
use crate::numbers::Numbers;
use crate::threads::work_all;
use crate::work::{Worker, add};
use share_lock::{Bell, Pass, ShareLock};
use std::alloc::{AllocError, Global};
use std::io;
use std::sync::Wait;
use std::sync::atomic::{AtomicU64, Ordering};
use std::thread::{Threads, join, sleep};
use std::time::{Clock, CpuClock, Duration};

// Handle 0 is split, handle 1 adds 5, handle 0 takes a turn, joins handle 1, and takes the list out.
fn two_passes<R: Wait>(rt: &R, alloc: Global) -> Result<(Numbers, u32, u64), AllocError> {
    let (lock, mut first) = ShareLock::open(alloc, Numbers::new(alloc), 2)?;
    let mut second = lock.split(rt, &mut first)?;
    let number = second.number();
    add(rt, &lock, &mut second, 5)?;
    let turn = lock.take(rt, &mut first);
    lock.give(turn);
    let seen = first.seen();
    lock.join(&mut first, second);
    let turn = lock.take(rt, &mut first);
    Ok((lock.end(turn), number, seen))
}

// Whether the list that two handles leave has the one number that was added, and what the handles knew is right.
fn two_passes_share_one_list<R: Wait>(rt: &R, alloc: Global) -> bool {
    match two_passes(rt, alloc) {
        Ok((list, number, seen)) => number == 1 && seen == 1 && is_five_of_one(&list),
        Err(_) => false,
    }
}

// Whether handle 1 added 5, and nothing else was added.
fn is_five_of_one(list: &Numbers) -> bool {
    match list.items.first() {
        Some(number) => list.items.len() == 1 && number.by == 1 && number.value == 5,
        None => false,
    }
}

// Whether the numbers of each worker are those from 0, in order, and there are no others.
fn is_whole(list: &Numbers, workers: u32, turns: u64) -> bool {
    let each = (1..=workers).all(|by| {
        list.items
            .iter()
            .filter(|n| n.by == by)
            .map(|n| n.value)
            .eq(0..turns)
    });
    each && u64::from(workers).checked_mul(turns) == Some(list.items.len() as u64)
}

// Whether threads that take turns leave a list with all their numbers.
fn threads_take_turns<R: Threads + Wait + Sync>(
    rt: &R,
    alloc: Global,
    workers: u32,
    turns: u64,
) -> bool
    requires { workers + 1 < 2 ^ 32 }
{
    match crew(rt, alloc, workers, turns) {
        Ok(list) => is_whole(&list, workers, turns),
        Err(_) => false,
    }
}

// A thread that waits at the bell continues when another rings it.
fn wake_who_waits<R: Threads + Wait + Sync>(rt: &R) {
    let bell = Bell::new();
    join(
        rt,
        || bell.wait(rt, 2),
        || {
            bell.ring(rt, 1);
            bell.ring(rt, 3);
        },
    );
}

// The bell forgets no ring.
fn wait_for_an_earlier_ring<R: Wait>(rt: &R) {
    let bell = Bell::new();
    bell.ring(rt, 3);
    bell.ring(rt, 1);
    bell.wait(rt, 2);
}

// Keeps a turn for a second, and sets `taken` once it has it.
fn keep_a_turn<R: Wait + Clock>(
    rt: &R,
    lock: &ShareLock<Numbers>,
    pass: &mut Pass<Numbers>,
    taken: &AtomicU64,
)
    requires ready { IsReady (lock_id lock.now) pass.old }
{
    let turn = lock.take(rt, pass);
    taken.store(1, Ordering::SeqCst);
    sleep(rt, Duration::from_secs(1));
    lock.give(turn);
}

// Lets each worker take its turns, in its own thread, once another thread has a turn.
fn work_behind<R: Threads + Wait + Clock + Sync>(
    rt: &R,
    lock: &ShareLock<Numbers>,
    workers: &mut [Worker],
    taken: &AtomicU64,
)
    requires ready { All (λ w. IsReady (lock_id lock.now) w.pass) workers.old }
{
    for _ in 0..10_000 {
        if taken.load(Ordering::SeqCst) == 1 {
            break;
        }
        sleep(rt, Duration::from_millis(1));
    }
    work_all(rt, lock, workers, 9);
}

// The processor time of this program while eight threads wait a second for their turns.
fn time_of_waiting<R: Threads + Wait + Clock + CpuClock + Sync>(
    rt: &R,
    alloc: Global,
) -> io::Result<Duration> {
    let (lock, mut first) = ShareLock::open(alloc, Numbers::new(alloc), 9)?;
    let mut workers = new_workers(rt, alloc, &lock, &mut first, 8, 1)?;
    let workers = workers.as_mut_slice();
    let taken = AtomicU64::new(0);
    let before = rt.process_cpu_time()?;
    join(
        rt,
        || keep_a_turn(rt, &lock, &mut first, &taken),
        ||
            requires { All (λ w. IsReady (lock_id lock) w.pass) workers.now }
        { work_behind(rt, &lock, workers, &taken) },
    );
    Ok(rt.process_cpu_time()?.saturating_sub(before))
}

// Whether eight threads sleep while they wait for their turns. Threads that polled would use the processor for a
// second and more.
fn eight_threads_wait_asleep<R: Threads + Wait + Clock + CpuClock + Sync>(
    rt: &R,
    alloc: Global,
) -> bool {
    match time_of_waiting(rt, alloc) {
        Ok(time) => time < Duration::from_millis(300),
        Err(_) => false,
    }
}

/// Prints the result of each trial.
pub fn print_trials<R: Threads + Wait + Clock + CpuClock + Sync + Print>(
    rt: &R,
    alloc: Global,
) -> io::Result<()> {
    println!(rt;
        "two handles share one list: {}",
        two_passes_share_one_list(rt, alloc)
    )?;
    println!(rt;
        "two threads take turns: {}",
        threads_take_turns(rt, alloc, 2, 4000)
    )?;
    println!(rt;
        "eight threads take turns: {}",
        threads_take_turns(rt, alloc, 8, 2000)
    )?;
    wake_who_waits(rt);
    println!(rt; "a bell wakes who waits")?;
    wait_for_an_earlier_ring(rt);
    println!(rt; "a bell forgets no ring")?;
    println!(rt;
        "eight threads wait asleep: {}",
        eight_threads_wait_asleep(rt, alloc)
    )
}

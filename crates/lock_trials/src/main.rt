//! Threads that take turns at one list of numbers. Shows what the lock's clauses say to its callers, and measures its
//! turns per second against a `std` Mutex.
#![tactic(auto)]

mod crew;
mod gather;
mod numbers;
mod rates;
mod threads;
mod trials;
mod work;

use crate::crew::crew;
use crate::rates::print_rates;
use crate::trials::print_trials;
use std::{env, io};

const WORKERS: u32 = 8;

const TURNS: u64 = 1000;

/// Without arguments, prints the length of the list that eight workers leave and the result of each trial; with one,
/// the turns per second.
fn main(rt: HostRuntime) -> io::Result<()> {
    if env::args(&rt)?.count() > 1 {
        return print_rates(&rt, rt.alloc());
    }
    let list = crew(&rt, rt.alloc(), WORKERS, TURNS)?;
    println!(rt; "{WORKERS} workers, {} numbers", list.items.len())?;
    print_trials(&rt, rt.alloc())
}

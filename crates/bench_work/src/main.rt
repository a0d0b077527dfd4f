//! Work on many made-up songs, so that bench/ can count what it takes. Each step is a word, and its numbers follow. A step
//! first does all that it needs, so what it takes itself is the difference between two runs.
#![tactic(auto)]

mod requests;
mod share;
mod store;

use anyhow::Context;
use std::env;

/// What is counted.
#[derive(Clone, Copy)]
enum Step {
    Requests,
    Store(store::Step),
    Share(share::Step),
}

fn step_named(word: &str) -> Option<Step> {
    if word == "requests" {
        return Some(Step::Requests);
    }
    if let Some(step) = store::step_named(word) {
        return Some(Step::Store(step));
    }
    share::step_named(word).map(Step::Share)
}

/// Returns the number at the index `at` of the arguments, or else `other`.
fn number_at(words: &[String], at: usize, other: u32) -> anyhow::Result<u32> {
    match words.get(at) {
        Some(word) => Ok(word.parse()?),
        None => Ok(other),
    }
}

fn count_of(rt: &HostRuntime, step: Step, words: &[String]) -> anyhow::Result<u64> {
    match step {
        Step::Requests => {
            let size = number_at(words, 1, 200)? as usize;
            let piece = number_at(words, 2, 1)? as usize;
            let times = number_at(words, 3, 3)?;
            Ok(u64::from(requests::asks_fed(rt.alloc(), size, piece, times)?))
        }
        Step::Store(step) => {
            let load = store::Load {
                songs: number_at(words, 1, 100)?,
                times: number_at(words, 2, 2)?,
                size: number_at(words, 3, 3)?,
            };
            store::taken(rt.alloc(), step, load)
        }
        Step::Share(step) => {
            let load = share::Load {
                step,
                entries: number_at(words, 1, 20)?,
                times: number_at(words, 2, 3)?,
                songs: number_at(words, 3, 1000)?,
            };
            share::body_bytes(rt.alloc(), load)
        }
    }
}

fn main(rt: HostRuntime) -> anyhow::Result<()> {
    let words: Vec<String> = env::args(&rt)?.skip(1).collect(rt.alloc())?;
    match words.first() {
        Some(word) => {
            let step = step_named(word).context("no such step")?;
            println!(rt; "{}", count_of(&rt, step, words.as_slice())?)?;
            Ok(())
        }
        None => print_all(&rt, words.as_slice()),
    }
}

/// Takes each step with few songs, and prints what it led to.
fn print_all(rt: &HostRuntime, no_numbers: &[String]) -> anyhow::Result<()> {
    print_step(rt, "requests", Step::Requests, no_numbers)?;
    for (name, step) in &store::STEPS {
        print_step(rt, *name, Step::Store(*step), no_numbers)?;
    }
    for (name, step) in &share::STEPS {
        print_step(rt, *name, Step::Share(*step), no_numbers)?;
    }
    Ok(())
}

fn print_step(
    rt: &HostRuntime,
    name: &str,
    step: Step,
    no_numbers: &[String],
) -> anyhow::Result<()> {
    let count = count_of(rt, step, no_numbers)?;
    println!(rt; "{name} {count}")?;
    Ok(())
}

//! How a run ends, with its arguments and input.

use command_runs::run;
use outside_net::{MemFiles, MemSink, MemSource, Net, Sink};
use std::alloc::Global;
use std::sync::Wait;
use std::thread::Threads;
use std::time::Clock;

/// Returns the status of a run with the arguments `words` and the input `input`.
pub fn status_of<R: Threads + Wait + Clock + Sync, W: Sink, N: Net>(
    rt: &R,
    alloc: Global,
    net: &mut N,
    words: &[&str],
    input: &[u8],
    output: &mut W,
) -> Option<u8> {
    let mut source = MemSource::new(alloc, input, 4096, &[]).ok()?;
    let mut files = MemFiles::new();
    Some(run(rt, alloc, words, &mut source, output, &mut files, net).status)
}

/// Returns whether a run ends with `status` and writes `output`.
pub fn ends<R: Threads + Wait + Clock + Sync, N: Net>(
    rt: &R,
    alloc: Global,
    net: &mut N,
    words: &[&str],
    input: &[u8],
    status: u8,
    output: &[u8],
) -> bool {
    let Ok(mut sink) = MemSink::new(alloc, 4096, 4096, &[]) else {
        return false;
    };
    let ended = status_of(rt, alloc, net, words, input, &mut sink);
    ended == Some(status) && sink.taken() == output
}

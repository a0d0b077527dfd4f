//! `daapshare`: a server and a mirror client for a shared music catalogue over DAAP.
//! `main` makes the real input, output, files and network, and ends with the status of `run` (`command_runs`). Before and
//! after the run it writes warnings and the reason of a failure to standard error.
#![tactic(auto)]

mod after;
mod before;
mod lines;
mod shown_files;
mod streams;
mod warnings;

use after::{Causes, explain, file_cause, network_cause};
use before::{QUIET, Terminals, prepare};
use command_core::{Fault, out_of_memory, write_error};
use command_runs::{UsageFault, run};
use lines::tell;
use outside_net::{Files, Net, Reading, SystemFiles, TcpNet, Writing};
use shown_files::ShownFiles;
use std::alloc::Global;
use std::io::{Eprint, ErrorKind, IsTerminal, Read, Write};
use std::process::ExitCode;
use std::sync::Wait;
use std::thread::Threads;
use std::time::Clock;
use std::{env, io};
use streams::{Kept, Last};

/// Returns the arguments after the program's name. One that is not UTF-8 is an error.
fn words_of(rt: &HostRuntime) -> io::Result<Vec<String>> {
    let mut words = Vec::new(rt.alloc());
    for word in env::args(rt)?.skip(1) {
        words.push(word)?;
    }
    Ok(words)
}

/// Returns the arguments, borrowed.
fn texts_of(alloc: Global, words: &[String]) -> io::Result<Vec<&str>> {
    let mut texts = Vec::new(alloc);
    for word in words {
        texts.push(word.as_str())?;
    }
    Ok(texts)
}

/// Runs the program over its standard input and output. Returns the status.
fn run_on<R: Threads + Wait + Clock + Sync, I: Read, W: Write, F: Files, N: Net>(
    rt: &R,
    alloc: Global,
    words: &[String],
    input: &mut Reading<I>,
    output: &mut Writing<W>,
    files: &mut F,
    net: &mut N,
) -> u8 {
    match texts_of(alloc, words) {
        Ok(texts) => run(rt, alloc, texts.as_slice(), input, output, files, net).status,
        Err(_) => out_of_memory(output, None).status,
    }
}

/// Prepares the run with these arguments. Returns its input.
fn prepared<'a, E: Eprint + Clock, I: Read>(
    rt: &'a E,
    alloc: Global,
    words: &[String],
    reader: I,
    terminals: Terminals,
) -> Reading<Kept<'a, E, I>> {
    Reading::new(match texts_of(alloc, words) {
        Ok(texts) => prepare(rt, alloc, texts.as_slice(), reader, terminals),
        Err(_) => Kept::new(rt, alloc, reader, QUIET),
    })
}

/// Writes why the run failed, or what of its input looks wrong.
fn explained<R: Eprint + Clock, I: Read + Drop, W: Write + Drop>(
    rt: &R,
    alloc: Global,
    words: &[String],
    status: u8,
    input: Reading<Kept<'_, R, I>>,
    output: Writing<Last<W>>,
    causes: Causes,
) {
    let kept = input.into_inner();
    let last = output.into_inner();
    if let Ok(texts) = texts_of(alloc, words) {
        explain(rt, alloc, texts.as_slice(), status, &kept, &last, causes);
    }
}

/// Returns whether the environment has `DAAPSHARE_LOG=1`.
fn is_logged(rt: &HostRuntime) -> bool {
    match env::var(rt, "DAAPSHARE_LOG") {
        Ok(value) => value.as_str() == "1",
        Err(_) => false,
    }
}

/// Ends a program whose arguments could not be read.
fn refused<R: Eprint, W: Write + Drop>(
    rt: &R,
    alloc: Global,
    error: &io::Error,
    writer: W,
) -> ExitCode {
    let mut output = Writing::new(writer);
    let status = if error.kind() == ErrorKind::OutOfMemory {
        out_of_memory(&mut output, None).status
    } else {
        tell(rt, alloc, "an argument is not UTF-8");
        write_error(alloc, &mut output, &Fault::Own(UsageFault::NoCommand)).status
    };
    ExitCode::from(status)
}

fn main(rt: HostRuntime) -> ExitCode {
    let alloc = rt.alloc();
    let terminals = Terminals {
        input: rt.stdin().is_terminal(),
        error: rt.stderr().is_terminal(),
    };
    let words = match words_of(&rt) {
        Ok(words) => words,
        Err(error) => return refused(&rt, alloc, &error, rt.stdout()),
    };
    let mut input = prepared(&rt, alloc, words.as_slice(), rt.stdin(), terminals);
    let mut output = Writing::new(Last::new(alloc, rt.stdout()));
    let mut files = ShownFiles::new(&rt, alloc, SystemFiles::new(&rt), terminals.error);
    let mut net = TcpNet::new(&rt, alloc);
    if is_logged(&rt) {
        net.log_connections();
    }
    let status = run_on(
        &rt,
        alloc,
        words.as_slice(),
        &mut input,
        &mut output,
        &mut files,
        &mut net,
    );
    let causes = Causes {
        network: network_cause(alloc, net.cause()),
        file: file_cause(alloc, files.inner().cause()),
    };
    explained(&rt, alloc, words.as_slice(), status, input, output, causes);
    ExitCode::from(status)
}

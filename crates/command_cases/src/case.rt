//! A case: the arguments and the input of a run of the program, and how it ends.

use anyhow::bail;
use bstr::ByteVec;
use command_runs::run;
use outside_net::{MemFiles, MemNet, MemSink, MemSource};
use std::alloc::{AllocError, Global};
use std::sync::Wait;
use std::thread::Threads;
use std::time::Clock;

/// The most bytes that a case may write.
const OUTPUT_BYTES: usize = 65_536;

/// The arguments and the input of a run.
#[derive(Drop)]
pub(crate) struct Case {
    words: Vec<String>,
    input: Vec<u8>,
}

/// How a run ended: its status, and the bytes that it wrote.
#[derive(Drop, PartialEq)]
pub(crate) struct Ended {
    pub(crate) status: u8,
    pub(crate) output: Vec<u8>,
}

/// Reads arguments, each after a blank.
fn read_words(alloc: Global, line: &str) -> anyhow::Result<Vec<String>> {
    let mut words = Vec::new(alloc);
    for word in line.split(' ').skip(1) {
        let Ok(word) = String::from_utf8(Vec::unescape_bytes(alloc, word)?) else {
            bail!("an argument is not UTF-8: {line}");
        };
        words.push(word)?;
    }
    Ok(words)
}

/// Reads the bytes that lines state, one line after another.
fn read_input(alloc: Global, lines: &str) -> Result<Vec<u8>, AllocError> {
    let mut input = Vec::new(alloc);
    for line in lines.split('\n') {
        input.extend_from_slice(Vec::unescape_bytes(alloc, line)?.as_slice())?;
    }
    Ok(input)
}

/// Reads a case: a line of arguments after `$`, and lines of input.
pub(crate) fn read_case(alloc: Global, head: &str, lines: &str) -> anyhow::Result<Case> {
    let Some(words) = head.strip_prefix('$') else {
        bail!("no case: {head}");
    };
    Ok(Case {
        words: read_words(alloc, words)?,
        input: read_input(alloc, lines)?,
    })
}

/// Returns the arguments, borrowed.
fn texts_of(alloc: Global, words: &[String]) -> Result<Vec<&str>, AllocError> {
    let mut texts = Vec::new(alloc);
    for word in words {
        texts.push(word.as_str())?;
    }
    Ok(texts)
}

/// Runs the program with the arguments `words` over `input`. Each read and each write has at most `piece` bytes.
fn run_over<R: Threads + Wait + Clock + Sync>(
    rt: &R,
    alloc: Global,
    words: &[&str],
    input: &[u8],
    piece: usize,
) -> Result<Ended, AllocError> {
    let piece = piece.max(1);
    let mut source = MemSource::new(alloc, input, piece, &[])?;
    let mut sink = MemSink::new(alloc, OUTPUT_BYTES, piece, &[])?;
    let mut files = MemFiles::new();
    let mut net = MemNet::new(alloc);
    let outcome = run(
        rt,
        alloc,
        words,
        &mut source,
        &mut sink,
        &mut files,
        &mut net,
    );
    Ok(Ended {
        status: outcome.status,
        output: sink.into_taken(),
    })
}

/// Returns how a case ends. Runs a case with an input also byte by byte, which has to make no difference.
pub(crate) fn run_twice<R: Threads + Wait + Clock + Sync>(
    rt: &R,
    alloc: Global,
    head: &str,
    case: &Case,
) -> anyhow::Result<Ended> {
    let words = texts_of(alloc, case.words.as_slice())?;
    let input = case.input.as_slice();
    let ended = run_over(rt, alloc, words.as_slice(), input, 4_096)?;
    if !input.is_empty() && ended != run_over(rt, alloc, words.as_slice(), input, 1)? {
        bail!("it ends otherwise byte by byte: {head}");
    }
    Ok(ended)
}

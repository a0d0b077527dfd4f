//! Runs the commands that its standard input states, each over its own input in memory, and prints how each ended: its
//! status, and the bytes that it wrote.
//!
//! Empty lines separate the parts of the input. A part that begins with `#` is a comment, and is printed as it is. Each
//! other part is a case: a line `$ WORD ..` with the arguments, and then lines with the bytes of the input.
#![tactic(auto)]

mod case;

use crate::case::{Ended, read_case, run_twice};
use bstr::ByteSlice;
use std::alloc::{AllocError, Global};
use std::io;
use std::sync::Wait;
use std::thread::Threads;
use std::time::Clock;

/// Adds a byte to a text. A blank stays as it is, and a byte that does not print becomes an escape.
fn show_byte(alloc: Global, text: &mut String, byte: u8) -> Result<(), AllocError> {
    if byte == b' ' {
        return text.push(' ');
    }
    let shown = format!(in alloc; "{}", [byte].as_slice().escape_bytes())?;
    text.push_str(shown.as_str())
}

/// Adds bytes to a text, with a line for each of theirs.
fn show_lines(alloc: Global, text: &mut String, bytes: &[u8]) -> Result<(), AllocError> {
    for line in bytes.lines_with_terminator() {
        for byte in line {
            show_byte(alloc, text, *byte)?;
        }
        text.push('\n')?;
    }
    Ok(())
}

/// Returns how a case ended as text, after the line of its arguments.
fn shown(alloc: Global, head: &str, ended: &Ended) -> Result<String, AllocError> {
    let mut text = format!(in alloc; "{head}\nstatus {}\n", ended.status)?;
    show_lines(alloc, &mut text, ended.output.as_slice())?;
    Ok(text)
}

/// Runs the case of a part, and returns how it ended as text. Returns a comment as it is.
fn answer<R: Threads + Wait + Clock + Sync>(
    rt: &R,
    alloc: Global,
    part: &str,
) -> anyhow::Result<String> {
    if part.starts_with('#') {
        return Ok(format!(in alloc; "{part}\n")?);
    }
    let (head, lines) = part.split_once('\n').unwrap_or((part, ""));
    let case = read_case(alloc, head, lines)?;
    let ended = run_twice(rt, alloc, head, &case)?;
    Ok(shown(alloc, head, &ended)?)
}

fn main(rt: HostRuntime) -> anyhow::Result<()> {
    let text = io::read_to_string(rt.alloc(), rt.stdin())?;
    for part in text.as_str().split("\n\n") {
        println!(rt; "{}", answer(&rt, rt.alloc(), part)?)?;
    }
    Ok(())
}

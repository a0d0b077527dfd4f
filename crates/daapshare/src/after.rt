//! Why a run failed, on standard error.

use crate::lines::tell;
use crate::streams::{Kept, Last};
use explanations::{Run, explanation};
use outside_net::Cause;
use std::alloc::Global;
use std::io::{self, Eprint, Read, Write};
use std::time::Clock;

/// What the system said of a failure of the network and of a file.
#[derive(Drop)]
pub struct Causes {
    pub network: Option<String>,
    pub file: Option<String>,
}

/// Writes why the run with these arguments ended with `status`.
pub fn explain<R: Eprint + Clock, I: Read, W: Write>(
    rt: &R,
    alloc: Global,
    words: &[&str],
    status: u8,
    input: &Kept<'_, R, I>,
    output: &Last<W>,
    causes: Causes,
) {
    let error = match status {
        4 => input.cause(),
        5 => output.cause(),
        _ => None,
    };
    let run = Run {
        status,
        last: output.last(alloc),
        stream: shown(alloc, error),
        network: causes.network,
        file: causes.file,
    };
    if let Ok(Some(text)) = explanation(alloc, words, input.whole(), &run) {
        tell(rt, alloc, text.as_str());
    }
}

/// Returns the text of an error of the system; `None` without memory too.
fn shown(alloc: Global, error: Option<io::Error>) -> Option<String> {
    format!(in alloc; "{}", error?).ok()
}

/// Returns the text of the network's last error; `None` without memory too.
pub fn network_cause(alloc: Global, cause: Option<&Cause>) -> Option<String> {
    format!(in alloc; "{}", cause?).ok()
}

/// Returns the text of the file's last error; `None` without memory too.
pub fn file_cause(alloc: Global, cause: Option<&io::Error>) -> Option<String> {
    format!(in alloc; "{}", cause?).ok()
}

//! Lines on standard error.

use explanations::printable;
use std::alloc::Global;
use std::io::Eprint;

/// Writes each line of `text` to standard error, after the program's name. A failed write is left: there is no other
/// stream to say it on.
pub fn tell<R: Eprint>(rt: &R, alloc: Global, text: &str) {
    let Ok(shown) = printable(alloc, text) else {
        return;
    };
    for line in shown.as_str().split('\n') {
        if !line.is_empty() {
            let _written = eprintln!(rt; "daapshare: {line}");
        }
    }
}

/// Writes each text.
pub fn tell_all<R: Eprint>(rt: &R, alloc: Global, texts: &[String]) {
    for text in texts {
        tell(rt, alloc, text.as_str());
    }
}

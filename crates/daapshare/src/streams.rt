//! The standard streams, with what an explanation needs of them.

use crate::lines::tell;
use crate::warnings::warn_rules;
use std::alloc::Global;
use std::io::{self, Eprint, Read, Write};
use std::time::{Clock, Duration};

/// The most bytes of the input that are kept.
const KEPT_BYTES: usize = 8_388_608;

/// What is written on standard error while the input is read.
#[derive(Clone, Copy)]
pub struct Watch {
    /// How many bytes were read, once a second.
    pub shows_progress: bool,
    /// At its end the warnings of the rules in its records.
    pub warns_of_rules: bool,
}

/// A reader that keeps what was read, and why a read failed.
#[derive(Drop)]
pub struct Kept<'a, E, R> {
    rt: &'a E,
    reader: R,
    alloc: Global,
    watch: Watch,
    bytes: Vec<u8>,
    /// How many of `bytes` were returned.
    given: usize,
    /// How many bytes were read, and how many lines ended in them.
    count: u64,
    lines: u64,
    is_whole: bool,
    is_ended: bool,
    cause: Option<io::Error>,
    /// When the last line on the progress was written, or the time of the start.
    shown_at: Duration,
}

impl<'a, E: Eprint + Clock, R: Read> Kept<'a, E, R> {
    pub fn new(rt: &'a E, alloc: Global, reader: R, watch: Watch) -> Kept<'a, E, R> {
        Kept {
            rt,
            reader,
            alloc,
            watch,
            bytes: Vec::new(alloc),
            given: 0,
            count: 0,
            lines: 0,
            is_whole: true,
            is_ended: false,
            cause: None,
            shown_at: rt.monotonic().unwrap_or(Duration::ZERO),
        }
    }

    /// Reads one piece ahead. Returns whether more may come.
    pub fn read_ahead(&mut self, piece: &mut [u8]) -> bool {
        match self.reader.read(piece) {
            Ok(0) => {
                self.end();
                false
            }
            Ok(n) => {
                let is_kept = self.bytes.extend_from_slice(&piece[..n]).is_ok();
                self.show_progress(&piece[..n]);
                is_kept
            }
            Err(error) => {
                self.cause = Some(error);
                false
            }
        }
    }

    /// Returns how many bytes were read and are kept.
    pub fn len(&self) -> usize {
        self.bytes.len()
    }

    /// Returns what was read, unless it was too much to be kept.
    pub fn whole(&self) -> Option<&[u8]> {
        if self.is_whole {
            Some(self.bytes.as_slice())
        } else {
            None
        }
    }

    /// Returns why the last read failed.
    pub fn cause(&self) -> Option<io::Error> {
        self.cause
    }

    /// Keeps a piece that is returned.
    fn keep(&mut self, piece: &[u8]) {
        self.show_progress(piece);
        if !self.is_whole {
            return;
        }
        let is_short = self.bytes.len().saturating_add(piece.len()) <= KEPT_BYTES;
        if !is_short || self.bytes.extend_from_slice(piece).is_err() {
            self.is_whole = false;
            self.bytes = Vec::new(self.alloc);
        }
        self.given = self.bytes.len();
    }

    /// Notes the end of the input.
    fn end(&mut self) {
        if self.is_ended {
            return;
        }
        self.is_ended = true;
        if self.watch.warns_of_rules && self.is_whole {
            // Without memory the warnings are left out.
            let _warned = warn_rules(self.rt, self.alloc, self.bytes.as_slice());
        }
    }

    /// Counts what was read last, and writes how much was read, if the last such line is a second old.
    fn show_progress(&mut self, piece: &[u8]) {
        if !self.watch.shows_progress {
            return;
        }
        self.count = self.count.saturating_add(piece.len() as u64);
        self.lines = self.lines.saturating_add(lines_in(piece));
        let now = self.rt.monotonic().unwrap_or(Duration::ZERO);
        if now.saturating_sub(self.shown_at) < Duration::from_secs(1) {
            return;
        }
        self.shown_at = now;
        let (lines, kilobytes) = (self.lines, self.count / 1024);
        if let Ok(words) = format!(in self.alloc; "{lines} lines of input read, {kilobytes} KiB") {
            tell(self.rt, self.alloc, words.as_str());
        }
    }
}

/// Returns how many lines end in these bytes.
fn lines_in(bytes: &[u8]) -> u64 {
    let mut lines: u64 = 0;
    for byte in bytes {
        if *byte == b'\n' {
            lines = lines.saturating_add(1);
        }
    }
    lines
}

impl<E: Eprint + Clock, R: Read> Read for Kept<'_, E, R> {
    fn read(&mut self, buf: &mut [u8]) -> io::Result<usize> {
        if let Some(mut ahead) = self.bytes.as_slice().get(self.given..) {
            let n = ahead.read(buf)?;
            if n > 0 || buf.is_empty() {
                self.given = self.given.saturating_add(n);
                return Ok(n);
            }
        }
        if self.is_ended {
            return Ok(0);
        }
        if let Some(error) = self.cause {
            return Err(error);
        }
        match self.reader.read(buf) {
            Ok(0) => {
                self.end();
                Ok(0)
            }
            Ok(n) => {
                self.keep(&buf[..n]);
                Ok(n)
            }
            Err(error) => {
                self.cause = Some(error);
                Err(error)
            }
        }
    }
}

/// How many bytes of the last piece are kept.
const LAST_BYTES: usize = 64;

/// A writer that keeps the first bytes of the last piece, and why a write failed.
#[derive(Drop)]
pub struct Last<W> {
    writer: W,
    last: Vec<u8>,
    cause: Option<io::Error>,
}

impl<W: Write> Last<W> {
    pub fn new(alloc: Global, writer: W) -> Last<W> {
        Last {
            writer,
            last: Vec::new(alloc),
            cause: None,
        }
    }

    /// Returns the first bytes of what was written last; none without memory.
    pub fn last(&self, alloc: Global) -> Vec<u8> {
        match Vec::from_slice(alloc, self.last.as_slice()) {
            Ok(bytes) => bytes,
            Err(_) => Vec::new(alloc),
        }
    }

    /// Returns why the last write failed.
    pub fn cause(&self) -> Option<io::Error> {
        self.cause
    }
}

impl<W: Write> Write for Last<W> {
    fn write(&mut self, buf: &[u8]) -> io::Result<usize> {
        let kept = buf.len().min(LAST_BYTES);
        self.last.clear();
        // Without memory the explanation lacks this.
        let _kept = self.last.extend_from_slice(&buf[..kept]);
        match self.writer.write(buf) {
            Ok(n) => Ok(n),
            Err(error) => {
                self.cause = Some(error);
                Err(error)
            }
        }
    }

    fn flush(&mut self) -> io::Result<()> {
        self.writer.flush()
    }
}

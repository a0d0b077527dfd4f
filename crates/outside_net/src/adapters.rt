//! Sources and sinks over std's readers and writers: the edge, whose std contracts are trusted.
ghost use Rattle.std.specs.Prelude.{◌≡◌, None};

use crate::sink::Sink;
use crate::source::Source;
use outside_disks::{Failed, Faulted, counted};
use std::io::{Read, Write};

/// A source over a reader of std. It knows the bytes that the reader is known to have left.
///
/// Each read is one read of the reader, straight into the caller's buffer, and each of the reader's errors is
/// counted.
#[derive(Drop)]
pub struct Reading<R> {
    reader: R,
    faults: u64,
}

impl<R: Read> Reading<R> {
    /// Returns a source over the reader, whose error counter is 0.
    pub fn new(reader: R) -> Reading<R>
        ensures left { ⟦<Reading<R> as Source>⟧.left result ≡ R.remaining reader }
        ensures faults { ⟦<Reading<R> as Faulted>⟧.faults result ≡ 0 }
    {
        Reading { reader, faults: 0 }
    }

    /// Returns the reader, after the last read.
    pub fn into_inner(self) -> R
        ensures left { R.remaining result ≡ ⟦<Reading<R> as Source>⟧.left self }
    {
        let Reading { reader, faults: _ } = self;
        reader
    }
}

impl<R> Faulted for Reading<R> {
    ghost faults = { λ source. source.faults };
}

impl<R: Read> Source for Reading<R> {
    ghost left = { λ source. R.remaining source.reader };

    ghost beside_left = { λ _. None };

    fn read(&mut self, room: &mut [u8]) -> Result<usize, Failed> {
        match self.reader.read(room) {
            Ok(n) => Ok(n),
            Err(_) => Err(counted(&mut self.faults)),
        }
    }
}

/// A sink over a writer of std. It knows the bytes that the writer is known to have.
///
/// Each write is one write of the writer. Each of the writer's errors is counted, and so is a write that takes
/// nothing. Nothing is flushed, so that no failed flush is overlooked: pass a writer without a buffer, as standard
/// output is here.
#[derive(Drop)]
pub struct Writing<W> {
    writer: W,
    faults: u64,
}

impl<W: Write> Writing<W> {
    /// Returns a sink over the writer, whose error counter is 0.
    pub fn new(writer: W) -> Writing<W>
        ensures taken { ⟦<Writing<W> as Sink>⟧.taken result ≡ W.contents writer }
        ensures faults { ⟦<Writing<W> as Faulted>⟧.faults result ≡ 0 }
    {
        Writing { writer, faults: 0 }
    }

    /// Returns the writer, with all that was written.
    pub fn into_inner(self) -> W
        ensures taken { W.contents result ≡ ⟦<Writing<W> as Sink>⟧.taken self }
    {
        let Writing { writer, faults: _ } = self;
        writer
    }
}

impl<W> Faulted for Writing<W> {
    ghost faults = { λ sink. sink.faults };
}

impl<W: Write> Sink for Writing<W> {
    ghost taken = { λ sink. W.contents sink.writer };

    ghost beside_taken = { λ _. None };

    fn write(&mut self, piece: &[u8]) -> Result<usize, Failed> {
        match self.writer.write(piece) {
            Ok(n) if n > 0 => Ok(n),
            _ => Err(counted(&mut self.faults)),
        }
    }
}

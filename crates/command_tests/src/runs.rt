//! What a command reads and writes in memory, and what its run leaves.

use command_core::Outcome;
use outside_net::{MemSink, MemSource};
use std::alloc::{AllocError, Global};
use std::process::Abort;
use std::test::Fail;

/// How bytes are read and written: the most bytes of one read and of one write, the number of the read and of the write
/// that fails (0: none), and the capacity of the output.
#[derive(Clone, Copy)]
pub(crate) struct Pieces {
    pub(crate) read: usize,
    pub(crate) failed_read: u64,
    pub(crate) write: usize,
    pub(crate) failed_write: u64,
    pub(crate) room: usize,
}

/// No call fails, and each may have 4,096 bytes.
pub(crate) const WHOLE: Pieces = Pieces {
    read: 4096,
    failed_read: 0,
    write: 4096,
    failed_write: 0,
    room: 4096,
};

pub(crate) fn source(alloc: Global, bytes: &[u8], pieces: Pieces) -> Result<MemSource, AllocError> {
    MemSource::new(alloc, bytes, pieces.read.max(1), &[pieces.failed_read])
}

pub(crate) fn sink(alloc: Global, pieces: Pieces) -> Result<MemSink, AllocError> {
    MemSink::new(
        alloc,
        pieces.room,
        pieces.write.max(1),
        &[pieces.failed_write],
    )
}

/// What a run left: its status, the bytes on the output, and the number of entries in the history of the share that it
/// opened.
#[derive(Drop)]
pub(crate) struct Ran {
    pub(crate) status: u8,
    pub(crate) output: Vec<u8>,
    pub(crate) entries: Option<usize>,
}

pub(crate) fn left(outcome: Outcome, output: MemSink) -> Ran {
    let entries = match &outcome.history {
        Some(history) => Some(history.as_slice().len()),
        None => None,
    };
    Ran {
        status: outcome.status,
        output: output.into_taken(),
        entries,
    }
}

/// Checks the status and the output that the run left.
pub(crate) fn has_left(rt: &impl Abort, ran: &Ran, status: u8, output: &[u8]) -> Result<(), Fail> {
    assert_eq!(rt; ran.status, status);
    assert_eq!(rt; ran.output.as_slice(), output);
    Ok(())
}

//! Reads a whole input, up to a limit.
ghost use Rattle.std.specs.Prelude.{◌≡◌, ℕ, ◌+◌, ◌<◌, ◌≤◌, List, length, IfOk, IfErr, IfSome, IsErrOf, OnErr};
ghost use Rattle.std.specs.Io.KnownBytes.{Consumes, IsAtEnd};
ghost use Rattle.outside_net.specs.Reading.{ConsumesUpTo, CountsReadFaults};
ghost use Rattle.outside_net.specs.declared.reading.ReadError.TheVariants.{Failed as failed, Memory};

use crate::source::Source;
use outside_disks::Failed;
use std::alloc::{AllocError, Global};
use thiserror::Error;

// The most bytes of one read.
const PIECE: usize = 32_768;

/// Why an input was not read whole.
#[derive(Debug, Drop, Error)]
pub enum ReadError {
    #[error("the input could not be read")]
    Failed,
    #[error("the input is longer than its limit")]
    TooLong,
    #[error("out of memory")]
    Memory,
}

impl From<Failed> for ReadError {
    ghost from_gives = { λ _ e. e ≡ failed };

    fn from(_fault: Failed) -> ReadError {
        ReadError::Failed
    }
}

impl From<AllocError> for ReadError {
    ghost from_gives = { λ _ e. e ≡ Memory };

    fn from(_error: AllocError) -> ReadError {
        ReadError::Memory
    }
}

/// Reads the source to its end, if it has at most `most` bytes left, and returns them.
///
/// Holds at most `most` bytes, and allocates no more than a small multiple of what it read. After an error some bytes
/// are read and lost.
pub fn read_within<I: Source>(
    alloc: Global,
    source: &mut I,
    most: u64,
) -> Result<Vec<u8>, ReadError>
    ensures whole { IfOk result (λ all. Consumes (I.left source.old)
        (I.left source.new) all.items) }
    ensures end { IfOk result (λ _. IsAtEnd (I.left source.new)) }
    ensures within { IfOk result (λ all. length all.items ≤ most) }

    ensures too_long { IsErrOf result ReadError.TooLong
        → IfSome (I.left source.old) (λ left. most < length left) }
    // A failed read occurs only within the limit.
    ensures failed { IsErrOf result ReadError.Failed
        → ConsumesUpTo most (I.left source.old) (I.left source.new) }
    // Past the limit at most one read is made.
    ensures part { ConsumesUpTo (most + PIECE) (I.left source.old) (I.left source.new) }

    ensures beside { I.beside_left source.new ≡ I.beside_left source.old }
    ensures count { CountsReadFaults (I.faults source.old) (I.faults source.new) result }
{
    let mut all = Vec::new(alloc);
    let mut piece = [0; PIECE];
    loop {
        let n = source.read(&mut piece)?;
        if n == 0 {
            return Ok(all);
        }
        if n as u64 > most - all.len() as u64 {
            return Err(ReadError::TooLong);
        }
        all.extend_from_slice(&piece[..n])?;
    }
}

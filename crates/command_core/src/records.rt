//! The records on the input of a command.

ghost use Rattle.std.specs.Prelude.{◌≡◌, ◌≤◌, length, IfOk, IfErr};
ghost use Rattle.item_model.specs.Valid.{AreValid};
ghost use Rattle.records_import.specs.Limits.{most_records};
ghost use Rattle.command_core.specs.Seen.{input_of};
ghost use Rattle.command_core.specs.ReadRecords.{HasReadAs, StopsReading, record_fault};

use crate::fault::{Fault, read_fault};
use item_model::Batch;
use outside_net::{Source, read_within};
use records_import::{RecordError, read_batch};
use std::alloc::Global;

/// The input may have at most this many bytes.
const RECORDS_LIMIT: u64 = 4_194_304;

/// Why the input is not a batch. Out of memory is `Fault::Memory`, and a read that failed is `Fault::Read`.
#[derive(Drop)]
pub enum InputFault {
    /// The input has more than `RECORDS_LIMIT` bytes.
    TooLong,
    /// Its records are refused.
    Records(RecordError),
}

/// Reads the input to its end. Returns the batch of its records.
pub fn read_records<I: Source>(alloc: Global, input: &mut I) -> Result<Batch, Fault<InputFault>>
    ensures reads { IfOk result (λ batch. HasReadAs batch
        (input_of I.Source input.old)
        (input_of I.Source input.new)) }
    ensures valid { IfOk result (λ batch. AreValid batch) }
    ensures few { IfOk result (λ batch. length batch ≤ most_records) }
    ensures cause { IfErr result (λ stop. StopsReading
        (input_of I.Source input.old)
        (input_of I.Source input.new)
        stop) }
{
    let bytes = match read_within(alloc, input, RECORDS_LIMIT) {
        Ok(bytes) => bytes,
        Err(error) => return Err(read_fault(error, InputFault::TooLong)),
    };
    match read_batch(alloc, bytes.as_slice()) {
        Ok(batch) => Ok(batch),
        Err(error) => Err(record_fault(error)),
    }
}

/// Returns the command's error if its records are refused.
fn record_fault(error: RecordError) -> Fault<InputFault>
    ensures { result ≡ record_fault error }
{
    match error {
        RecordError::Memory => Fault::Memory,
        refusal => Fault::Own(InputFault::Records(refusal)),
    }
}

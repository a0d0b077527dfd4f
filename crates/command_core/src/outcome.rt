//! What a command writes at its end, and what the run leaves.

ghost use Rattle.std.specs.Prelude.{◌≡◌, None, MatchResult};
ghost use Rattle.command_core.specs.Seen.{output_of};
ghost use Rattle.command_core.specs.Answers.{Writes, WritesDone, WritesError, WritesMemory};

use crate::fault::{Fault, Refusal};
use item_model::Entries;
use outside_net::{Sink, put_all};
use std::alloc::Global;

/// What a run leaves: the status of the program, and the history of the share, if it opened one.
#[derive(Drop)]
pub struct Outcome {
    pub status: u8,
    pub history: Option<Entries>,
}

/// Writes the result of a command that opens no share, or the line of its error.
pub fn write_result<W: Sink, E: Refusal + Drop>(
    alloc: Global,
    output: &mut W,
    answer: Result<Vec<u8>, Fault<E>>,
) -> Outcome
    ensures { MatchResult answer
        (λ bytes. WritesDone None bytes.items
        (output_of W.Sink output.old)
        (output_of W.Sink output.new)
        result)
        (λ fault. WritesError E.error_line E.error_status fault
        (output_of W.Sink output.old)
        (output_of W.Sink output.new)
        result) }
{
    match answer {
        Ok(bytes) => write_output(output, bytes.as_slice(), None),
        Err(fault) => write_error(alloc, output, &fault),
    }
}

/// Writes the output of a command that succeeded.
pub fn write_output<W: Sink>(output: &mut W, bytes: &[u8], history: Option<Entries>) -> Outcome
    ensures { WritesDone history bytes.now
        (output_of W.Sink output.old)
        (output_of W.Sink output.new)
        result }
{
    Outcome {
        status: write_bytes(output, bytes, 0),
        history,
    }
}

/// Writes the line of an error of a command that opened no share, or that of out of memory if an allocation fails.
pub fn write_error<W: Sink, E: Refusal>(alloc: Global, output: &mut W, fault: &Fault<E>) -> Outcome
    ensures { WritesError E.error_line E.error_status fault.now
        (output_of W.Sink output.old)
        (output_of W.Sink output.new)
        result }
{
    match fault.line(alloc) {
        Ok(line) => Outcome {
            status: write_bytes(output, line.as_slice(), fault.status()),
            history: None,
        },
        Err(_) => out_of_memory(output, None),
    }
}

/// Writes the line of out of memory. Does not allocate.
pub fn out_of_memory<W: Sink>(output: &mut W, history: Option<Entries>) -> Outcome
    ensures { WritesMemory history
        (output_of W.Sink output.old)
        (output_of W.Sink output.new)
        result }
{
    Outcome {
        status: write_bytes(output, b"memory\n", 9),
        history,
    }
}

/// Writes `bytes`. Returns `status`, or 5 if the output failed.
fn write_bytes<W: Sink>(output: &mut W, bytes: &[u8], status: u8) -> u8
    ensures { Writes status bytes.now
        (output_of W.Sink output.old)
        (output_of W.Sink output.new)
        result }
{
    match put_all(output, bytes) {
        Ok(()) => status,
        Err(_) => 5,
    }
}

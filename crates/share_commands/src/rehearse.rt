//! The command `rehearse`: edits a share with made-up batches while mirrors follow it, and writes a summary.

ghost use Rattle.std.specs.Prelude.{◌≡◌, ◌≤◌};
ghost use Rattle.command_core.specs.Seen.{Around, InputSeen, output_of, run_over_streams};
ghost use Rattle.command_core.specs.Endings.{IsAnswered, share_of};
ghost use Rattle.share_commands.specs.RehearseShare.{rehearse_line, rehearse_status, MayRehearse, OpensWithin, rehearse_meaning};

use command_core::{Fault, Outcome, Refusal, out_of_memory, write_error, write_output};
use outside_net::Sink;
use rehearsal::{Rehearsal, rehearse};
use share_history::MAX_EDITS;
use std::alloc::{AllocError, Global};

/// Errors of `rehearse`.
#[derive(Drop)]
pub enum RehearseFault {
    /// There are more edits than a share's history may have.
    TooMany,
}

impl Refusal for RehearseFault {
    ghost error_line = { rehearse_line };

    ghost error_status = { rehearse_status };

    fn line(&self, alloc: Global) -> Result<Vec<u8>, AllocError> {
        Vec::from_slice(alloc, b"limit: rehearsal\n")
    }

    fn status(&self) -> u8 {
        8
    }
}

/// Runs `rehearse`: makes up `batches` batches of `size` edits each, from `number`, and applies them to a share with a
/// delta window of `keep` revisions. Reads no input.
pub fn rehearse_share<W: Sink>(
    alloc: Global,
    number: u32,
    batches: u32,
    size: u32,
    keep: u32,
    output: &mut W,
) -> Outcome
    requires { MayRehearse number batches size keep }
    ensures answered { (around : Around) (input : InputSeen)
        → IsAnswered (rehearse_meaning number batches size keep)
        (run_over_streams around input input
        (output_of W.Sink output.old)
        (output_of W.Sink output.new))
        result }
    ensures opened { OpensWithin number batches size (share_of result) }
{
    if MAX_EDITS < batches as usize * size as usize {
        return write_error(alloc, output, &Fault::Own(RehearseFault::TooMany));
    }
    let plan = Rehearsal {
        number,
        batches,
        size,
        keep,
    };
    match rehearse(alloc, &plan) {
        Ok(rehearsed) => {
            let summary = rehearsed.summary;
            write_output(output, summary.as_slice(), Some(rehearsed.history))
        }
        Err(broken) => out_of_memory(output, Some(broken.history)),
    }
}

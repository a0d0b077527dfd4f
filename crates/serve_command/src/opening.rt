//! Writes the first line of a share, and puts the share under its lock.

ghost use Rattle.std.specs.Prelude.{◌≡◌, All, IfOk, MatchResult};
ghost use Rattle.command_core.specs.Seen.{output_of};
ghost use Rattle.share_replies.specs.Laws.{maker};
ghost use Rattle.share_crew.specs.Begun.{HasRoom};
ghost use Rattle.serve_command.specs.Begun.{HasBegun};
ghost use Rattle.serve_command.specs.Lines.{serving_line};
ghost use Rattle.serve_command.specs.Runs.{NotAnnounced, first_line};
ghost use Rattle.serve_command.specs.Terms.{MayServe, settings_of, workers_of};

use crate::terms::Serving;
use command_core::out_of_memory;
use fault_lines::push_number;
use outside_net::Sink;
use share_core::Share;
use share_crew::{LockedShare, WorkerBuffers, write_and_lock};
use std::alloc::{AllocError, Global};

/// Writes the first line of `share`, and puts it under a lock.
///
/// # Errors
///
/// Returns the status that the program ends with: 5 if the output failed, and 9 if an allocation failed and the line of
/// that was written.
pub(crate) fn begin<W: Sink, D: Drop>(
    alloc: Global,
    serving: &Serving,
    output: &mut W,
    share: Share,
) -> Result<LockedShare<D>, u8>
    requires may { MayServe serving.now }
    requires opening { All (λ e. maker e ≡ 0) share.history }
    requires settings { share.settings ≡ settings_of serving.now }
    ensures { MatchResult result
        (HasBegun serving.now share.history
        (output_of W.Sink output.old)
        (output_of W.Sink output.new))
        (NotAnnounced (first_line serving.now share.history)
        (output_of W.Sink output.old)
        (output_of W.Sink output.new)) }
{
    let passes = serving.workers + serving.editors + 1;
    match prepare(alloc, serving, &share) {
        Ok((line, room)) => write_and_lock(alloc, output, line.as_slice(), share, passes, room),
        Err(AllocError) => Err(out_of_memory(output, None).status),
    }
}

// Returns the first line of the share, and the capacity for its workers.
fn prepare<D: Drop>(
    alloc: Global,
    serving: &Serving,
    share: &Share,
) -> Result<(Vec<u8>, WorkerBuffers<D>), AllocError>
    requires { MayServe serving.now }
    ensures line { IfOk result (λ r. r.0.items ≡ first_line serving.now share.now.history) }
    ensures room { IfOk result (λ r. HasRoom (workers_of serving.now) r.1) }
{
    let line = first_line_of(alloc, serving, share.revision())?;
    let room = WorkerBuffers::of(alloc, (serving.workers + serving.editors) as usize)?;
    Ok((line, room))
}

// Returns the first line of the share.
fn first_line_of(alloc: Global, serving: &Serving, revision: u32) -> Result<Vec<u8>, AllocError>
    ensures { IfOk result (λ line. line.items ≡ serving_line serving.now.name revision) }
{
    let mut line = Vec::from_slice(alloc, b"serving ")?;
    line.extend_from_slice(serving.name.as_str().as_bytes())?;
    push_number(&mut line, b" at revision ", u64::from(revision))?;
    line.push(b'\n')?;
    Ok(line)
}

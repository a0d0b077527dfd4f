//! Writes the lines after the last connection, and returns the status.

ghost use Rattle.std.specs.Prelude.{◌<◌, ◌^◌, ◌++◌, MatchResult};
ghost use Rattle.command_core.specs.Seen.{output_of};
ghost use Rattle.command_core.specs.Answers.{Writes};
ghost use Rattle.share_history.specs.Histories.{batches, revision};
ghost use Rattle.share_crew.specs.Outcomes.{LeavesShare};
ghost use Rattle.share_crew.specs.Lines.{ended_line, links_in, requests_in};
ghost use Rattle.share_crew.specs.Verdicts.{verdict_line, verdict_status, with_memory};
ghost use Rattle.serve_command.specs.Runs.{WritesEnd};

use outside_net::{Sink, put_all};
use share_core::Share;
use share_crew::{LinkReports, Outcome, Verdict, ended_line_of};
use std::alloc::{AllocError, Global};

/// Writes what was served, and how it ended. Returns the outcome of the run.
pub(crate) fn finish<W: Sink>(
    alloc: Global,
    output: &mut W,
    share: Share,
    links: LinkReports,
    verdict: Verdict,
) -> Outcome
    requires links { links_in links < 2 ^ 64 }
    requires requests { requests_in links < 2 ^ 64 }
    ensures left { LeavesShare share.history links result }
    ensures told { WritesEnd (ended_line (revision (batches share.history)) links) verdict
        (output_of W.Sink output.old)
        (output_of W.Sink output.new)
        result.status }
{
    let line = ended_line_of(alloc, share.revision(), links.as_slice());
    let status = write_end(output, line, verdict);
    Outcome::of_share(status, share, links)
}

// Writes the line, and then that of the verdict. Returns the status.
fn write_end<W: Sink>(output: &mut W, line: Result<Vec<u8>, AllocError>, verdict: Verdict) -> u8
    ensures { MatchResult line
        (λ bytes. Writes (verdict_status verdict) (bytes.items ++ verdict_line verdict)
        (output_of W.Sink output.old)
        (output_of W.Sink output.new)
        result)
        (λ _. Writes (verdict_status (with_memory verdict)) (verdict_line (with_memory verdict))
        (output_of W.Sink output.old)
        (output_of W.Sink output.new)
        result) }
{
    match line {
        Ok(line) => match put_all(output, line.as_slice()) {
            Ok(()) => write_verdict(output, verdict),
            Err(_) => 5,
        },
        Err(AllocError) => write_verdict(output, verdict.with_memory()),
    }
}

// Writes the line of a verdict. Returns the status.
fn write_verdict<W: Sink>(output: &mut W, verdict: Verdict) -> u8
    ensures { Writes (verdict_status verdict) (verdict_line verdict)
        (output_of W.Sink output.old)
        (output_of W.Sink output.new)
        result }
{
    match put_all(output, verdict.line()) {
        Ok(()) => verdict.status(),
        Err(_) => 5,
    }
}

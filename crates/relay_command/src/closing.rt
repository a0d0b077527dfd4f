//! Writes the lines after the last round, and returns the status.

ghost use Rattle.std.specs.Prelude.{◌≡◌, ◌<◌, ◌^◌, ◌++◌, Some, map, IfOk, MatchResult};
ghost use Rattle.command_core.specs.Seen.{output_of};
ghost use Rattle.command_core.specs.declared.fault.Fault.TheVariants.{Memory};
ghost use Rattle.relay_command.specs.Faults.{worse_of};
ghost use Rattle.share_history.specs.Histories.{batches, revision};
ghost use Rattle.share_crew.specs.Outcomes.{LeavesShare};
ghost use Rattle.share_crew.specs.Lines.{ended_line, links_in, requests_in};
ghost use Rattle.relay_command.specs.Lines.{round_line, round_lines};
ghost use Rattle.relay_command.specs.Runs.{WritesThenError, WritesEnd, WritesLastError, last_lines};

use crate::fault::{RelayFault, rank_of};
use command_core::{Fault, write_error};
use fault_lines::push_number;
use outside_net::{Sink, put_all};
use relay_share::Relayed;
use share_core::Share;
use share_crew::{LinkReports, Outcome, ended_line_of};
use share_server::LinkReport;
use std::alloc::{AllocError, Global};

/// Writes what was relayed and served, or the line of `fault`. Returns the outcome of the run.
pub(crate) fn finish<W: Sink>(
    alloc: Global,
    output: &mut W,
    share: Share,
    links: LinkReports,
    rounds: &[Relayed],
    fault: Option<Fault<RelayFault>>,
) -> Outcome
    requires links { links_in links < 2 ^ 64 }
    requires requests { requests_in links < 2 ^ 64 }
    ensures left { LeavesShare share.history links result }
    ensures told { WritesEnd (last_lines (revision (batches share.history)) links rounds.now fault)
        fault
        (output_of W.Sink output.old)
        (output_of W.Sink output.new)
        result.status }
{
    let lines = last_lines(alloc, share.revision(), links.as_slice(), rounds, &fault);
    let status = write_end(alloc, output, lines, fault);
    Outcome::of_share(status, share, links)
}

// Returns the lines of the rounds, and the last line if there is no error.
fn last_lines(
    alloc: Global,
    revision: u32,
    workers: &[Vec<LinkReport>],
    rounds: &[Relayed],
    fault: &Option<Fault<RelayFault>>,
) -> Result<Vec<u8>, AllocError>
    requires links { links_in (map (λ l. l.items) workers.now) < 2 ^ 64 }
    requires requests { requests_in (map (λ l. l.items) workers.now) < 2 ^ 64 }
    ensures { IfOk result (λ lines. lines.items
        ≡ last_lines revision (map (λ l. l.items) workers.now) rounds.now fault.now) }
{
    let mut lines = round_lines(alloc, rounds)?;
    if fault.is_none() {
        lines.extend_from_slice(ended_line_of(alloc, revision, workers)?.as_slice())?;
    }
    Ok(lines)
}

fn round_lines(alloc: Global, rounds: &[Relayed]) -> Result<Vec<u8>, AllocError>
    ensures { IfOk result (λ lines. lines.items ≡ round_lines rounds.now) }
{
    let mut lines = Vec::new(alloc);
    for round in rounds {
        lines.extend_from_slice(round_line(alloc, round)?.as_slice())?;
    }
    Ok(lines)
}

fn round_line(alloc: Global, round: &Relayed) -> Result<Vec<u8>, AllocError>
    ensures { IfOk result (λ line. line.items ≡ round_line round.now) }
{
    let kind: &[u8] = if round.delta {
        b" delta puts "
    } else {
        b" full puts "
    };
    let mut line = Vec::new(alloc);
    push_number(&mut line, b"upstream ", u64::from(round.upstream))?;
    push_number(&mut line, kind, u64::from(round.puts))?;
    push_number(&mut line, b" drops ", u64::from(round.drops))?;
    push_number(&mut line, b" revision ", u64::from(round.revision))?;
    line.push(b'\n')?;
    Ok(line)
}

// Writes the lines, and then that of the error. Returns the status.
fn write_end<W: Sink>(
    alloc: Global,
    output: &mut W,
    lines: Result<Vec<u8>, AllocError>,
    fault: Option<Fault<RelayFault>>,
) -> u8
    ensures { MatchResult lines
        (λ text. WritesThenError text.items fault
        (output_of W.Sink output.old)
        (output_of W.Sink output.new)
        result)
        (λ _. WritesLastError (worse_of fault (Some Memory))
        (output_of W.Sink output.old)
        (output_of W.Sink output.new)
        result) }
{
    match lines {
        Ok(lines) => match put_all(output, lines.as_slice()) {
            Ok(()) => write_verdict(alloc, output, fault),
            Err(_) => 5,
        },
        Err(AllocError) => write_verdict(alloc, output, with_memory(fault)),
    }
}

// Writes the line of `fault`, if there is one. Returns the status.
fn write_verdict<W: Sink>(alloc: Global, output: &mut W, fault: Option<Fault<RelayFault>>) -> u8
    ensures { WritesLastError fault (output_of W.Sink output.old) (output_of W.Sink output.new) result }
{
    match fault {
        Some(fault) => write_error(alloc, output, &fault).status,
        None => 0,
    }
}

// Returns the error that counts if an allocation failed besides.
fn with_memory(fault: Option<Fault<RelayFault>>) -> Option<Fault<RelayFault>>
    ensures { result ≡ worse_of fault (Some Memory) }
{
    if rank_of(&Some(Fault::Memory)) <= rank_of(&fault) {
        fault
    } else {
        Some(Fault::Memory)
    }
}

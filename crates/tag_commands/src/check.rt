//! The command `check`: tags are read as they come, and counted.

ghost use Rattle.std.specs.Prelude.{◌≡◌, ◌≤◌, ℕ, List, length, IfOk, IfErr};
ghost use Rattle.std.specs.Io.KnownBytes.{Consumes, IsAtEnd};
ghost use Rattle.command_core.specs.Seen.{Around, input_of, output_of, run_over_streams, no_share};
ghost use Rattle.command_core.specs.Endings.{IsAnswered};
ghost use Rattle.tag_commands.specs.TopTags.{tags_limit, StopsReading};
ghost use Rattle.tag_commands.specs.Check.{check_line, check_meaning, IsChecked};
ghost use Rattle.tag_commands.specs.Counting.{IsCounted};

use crate::counting::{Counter, PIECE};
use crate::tags_fault::{TagsFault, tags_fault};
use command_core::{Fault, Outcome, write_result};
use fault_lines::push_number;
use outside_net::{Sink, Source};
use std::alloc::{AllocError, Global};

/// Runs `check`: one line states the number of top tags and bytes of the input.
pub fn check_tags<I: Source, W: Sink>(alloc: Global, input: &mut I, output: &mut W) -> Outcome
    ensures { (around : Around) → IsAnswered check_meaning
        (run_over_streams around
        (input_of I.Source input.old)
        (input_of I.Source input.new)
        (output_of W.Sink output.old)
        (output_of W.Sink output.new))
        result }
{
    let answer = check_input(alloc, input);
    write_result(alloc, output, answer)
}

/// Reads the input to its end, within its limit, and counts its tags.
fn count_tags<I: Source>(alloc: Global, input: &mut I) -> Result<Counter, Fault<TagsFault>>
    ensures read { IfOk result (λ counter. (fed : List ℕ) × IsCounted fed counter
        × (length fed ≤ tags_limit) × Consumes (I.left input.old) (I.left input.new) fed) }
    ensures end { IfOk result (λ _. IsAtEnd (I.left input.new)) }
    ensures faultless { IfOk result (λ _. I.faults input.new ≡ I.faults input.old) }
    ensures cause { IfErr result (λ fault. StopsReading
        (input_of I.Source input.old)
        (input_of I.Source input.new)
        fault) }
{
    let mut counter = Counter::new(alloc)?;
    let mut piece = [0; PIECE];
    loop {
        let n = match input.read(&mut piece) {
            Ok(n) => n,
            Err(_) => return Err(Fault::Read),
        };
        if n == 0 {
            return Ok(counter);
        }
        let (read, _) = piece.split_at(n);
        if let Err(fault) = counter.take(read) {
            return Err(fault);
        }
    }
}

/// Reads the input to its end, and returns the line that states its number of top tags and bytes.
fn check_input<I: Source>(alloc: Global, input: &mut I) -> Result<Vec<u8>, Fault<TagsFault>>
    ensures checked { IfOk result (λ line. IsChecked
        (input_of I.Source input.old)
        (input_of I.Source input.new)
        no_share line.items) }
    ensures cause { IfErr result (λ fault. StopsReading
        (input_of I.Source input.old)
        (input_of I.Source input.new)
        fault) }
{
    let counter = count_tags(alloc, input)?;
    let bytes = counter.bytes;
    match counter.end() {
        Ok(tags) => Ok(line_of(alloc, tags, bytes)?),
        Err(error) => Err(tags_fault(error)),
    }
}

fn line_of(alloc: Global, tags: u64, bytes: u64) -> Result<Vec<u8>, AllocError>
    ensures { IfOk result (λ line. line.items ≡ check_line tags bytes) }
{
    let mut line = Vec::new(alloc);
    push_number(&mut line, b"ok ", tags)?;
    push_number(&mut line, b" tags ", bytes)?;
    line.extend_from_slice(b" bytes\n")?;
    Ok(line)
}

//! The command `replay`: plays a script to a new share, and writes what the share answers.

ghost use Rattle.std.specs.Prelude.{◌≡◌, ◌≤◌, ◌++◌, ◌∷◌, [], List, Some, length, codes, decimal, IfOk, IfErr};
ghost use Rattle.item_model.specs.Limits.{text_limit};
ghost use Rattle.item_model.specs.declared.changes.Entry.{Entry};
ghost use Rattle.command_core.specs.Causes.{StopsBy};
ghost use Rattle.command_core.specs.Endings.{IsAnswered};
ghost use Rattle.command_core.specs.Seen.{Around, input_of, output_of, run_over_streams};
ghost use Rattle.share_commands.specs.Moments.{EndsPlay};
ghost use Rattle.share_commands.specs.ReadScript.{IsRead};
ghost use Rattle.share_commands.specs.ReplayShare.{ReplayReadsOn, new_share, replay_cause, replay_line, replay_meaning, replay_status};

use command_core::{Fault, Outcome, Refusal, out_of_memory, read_fault, write_error};
use item_model::{Batch, Edits, Entries};
use itoa::Buffer;
use outside_net::{Sink, Source, read_within};
use share_core::{OpenError, Share};
use share_replay::{ReplayError, Script, ScriptError, replay};
use std::alloc::{AllocError, Global};

/// The input may have at most this many bytes.
const SCRIPT_LIMIT: u64 = 67_108_864;

/// Errors of `replay`. Out of memory is `Fault::Memory`.
#[derive(Drop)]
pub enum ReplayFault {
    /// The input has more than `SCRIPT_LIMIT` bytes.
    TooLong,
    /// Line number `line`, counted from 1, is the first that is not a line of a script.
    Line { line: u64 },
}

impl Refusal for ReplayFault {
    ghost error_line = { replay_line };

    ghost error_status = { replay_status };

    fn line(&self, alloc: Global) -> Result<Vec<u8>, AllocError> {
        match self {
            ReplayFault::TooLong => Vec::from_slice(alloc, b"limit: input\n"),
            ReplayFault::Line { line } => bad_line(alloc, *line),
        }
    }

    fn status(&self) -> u8 {
        match self {
            ReplayFault::TooLong => 8,
            ReplayFault::Line { .. } => 3,
        }
    }
}

fn bad_line(alloc: Global, line: u64) -> Result<Vec<u8>, AllocError>
    ensures { IfOk result (λ text. text.items ≡ codes "script: line " ++ decimal line ++ 10 ∷ []) }
{
    let mut text = Vec::new(alloc);
    text.extend_from_slice(b"script: line ")?;
    text.extend_from_slice(Buffer::new().format(line).as_bytes())?;
    text.extend_from_slice(b"\n")?;
    Ok(text)
}

/// Runs `replay`: plays the script of the input to a new share, named `name` and with a delta window of `keep`
/// revisions, and writes what the share answers.
pub fn replay_script<I: Source, W: Sink>(
    alloc: Global,
    keep: u32,
    name: &str,
    input: &mut I,
    output: &mut W,
) -> Outcome
    requires some { 1 ≤ keep }
    requires window { keep ≤ 65536 }
    requires short { length name.now ≤ text_limit }
    ensures { (around : Around) → IsAnswered (replay_meaning keep name.now)
        (run_over_streams around
        (input_of I.Source input.old)
        (input_of I.Source input.new)
        (output_of W.Sink output.old)
        (output_of W.Sink output.new))
        result }
{
    let script = match script_of(alloc, input) {
        Ok(script) => script,
        Err(fault) => return write_error(alloc, output, &fault),
    };
    match open_empty(alloc, keep, name) {
        Ok(share) => play(alloc, &script, share, output),
        Err(AllocError) => out_of_memory(output, None),
    }
}

/// Reads the input to its end. Returns its script.
fn script_of<I: Source>(alloc: Global, input: &mut I) -> Result<Script, Fault<ReplayFault>>
    ensures read { IfOk result (λ script. IsRead script
        (input_of I.Source input.old)
        (input_of I.Source input.new)) }
    ensures cause { IfErr result (λ fault. StopsBy replay_cause ReplayReadsOn (Unit {0})
        (input_of I.Source input.old)
        (input_of I.Source input.new)
        fault) }
{
    let bytes = match read_within(alloc, input, SCRIPT_LIMIT) {
        Ok(bytes) => bytes,
        Err(error) => return Err(read_fault(error, ReplayFault::TooLong)),
    };
    match Script::read(alloc, bytes.as_slice()) {
        Ok(script) => Ok(script),
        Err(ScriptError::Line { line }) => Err(Fault::Own(ReplayFault::Line { line })),
        Err(ScriptError::Memory) => Err(Fault::Memory),
    }
}

/// Opens a share with an empty history.
fn open_empty(alloc: Global, keep: u32, name: &str) -> Result<Share, AllocError>
    requires some { 1 ≤ keep }
    requires window { keep ≤ 65536 }
    requires short { length name.now ≤ text_limit }
    ensures { IfOk result (λ share. share ≡ new_share keep name.now) }
{
    let first = Batch {
        edits: Edits::new(alloc),
    };
    match Share::open(alloc, name, keep, first) {
        Ok(share) => Ok(share),
        Err(OpenError::Edits | OpenError::Lists | OpenError::Memory) => Err(AllocError),
    }
}

/// Plays the script. Returns the status and the history of the share.
fn play<W: Sink>(alloc: Global, script: &Script, mut share: Share, output: &mut W) -> Outcome
    requires { share.history ≡ [] }
    ensures { (history : List Entry) × (result.history ≡ Some history)
        × EndsPlay share.settings script.now
        (output_of W.Sink output.old)
        (output_of W.Sink output.new)
        result.status history }
{
    match replay(alloc, script, &mut share, output) {
        Ok(()) => Outcome {
            status: 0,
            history: Some(Entries::of(share.into_history())),
        },
        Err(ReplayError::Failed) => Outcome {
            status: 5,
            history: Some(Entries::of(share.into_history())),
        },
        Err(ReplayError::Memory) => {
            out_of_memory(output, Some(Entries::of(share.into_history())))
        }
    }
}

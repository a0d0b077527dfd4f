//! The command `json --back`: reads lines of JSON, and writes the bytes of their tags.

ghost use Rattle.std.specs.Prelude.{◌≡◌, ◌≢◌, ◌++◌, [], IfOk, IfErr, MatchOption, OnOk};
ghost use Rattle.code_table.specs.Standard.{standard_rows};
ghost use Rattle.dmap_tags.specs.Spelling.{spelling};
ghost use Rattle.command_core.specs.Seen.{Around, input_of, output_of, run_over_streams, no_share};
ghost use Rattle.command_core.specs.Endings.{IsAnswered};
ghost use Rattle.json_commands.specs.Whole.{IsWithin, IsGiven};
ghost use Rattle.json_commands.specs.JsonBack.{line_text, line_status, GivesTags, IsLinesFault, StopsAfter, StopsBack, TakesLine, json_back_meaning};

use crate::lines::{split_line, tag_of};
use crate::whole::INPUT_LIMIT;
use code_table::CodeTable;
use command_core::{Fault, Outcome, Refusal, read_fault, write_result};
use dmap_tags::{Tag, encode_into};
use fault_lines::push_number;
use outside_net::{Sink, Source, read_within};
use std::alloc::{AllocError, Global};

/// Why an input is refused.
#[derive(Drop)]
pub enum LineFault {
    /// Line number `line`, counted from 1, is the first that does not read as a tag or has no line feed.
    Line { line: u64 },
    /// The input has more than `INPUT_LIMIT` bytes.
    TooLong,
}

impl Refusal for LineFault {
    ghost error_line = { line_text };

    ghost error_status = { line_status };

    fn line(&self, alloc: Global) -> Result<Vec<u8>, AllocError> {
        match self {
            LineFault::Line { line } => numbered_line(alloc, *line),
            LineFault::TooLong => Vec::from_slice(alloc, b"limit: input\n"),
        }
    }

    fn status(&self) -> u8 {
        match self {
            LineFault::Line { .. } => 3,
            LineFault::TooLong => 8,
        }
    }
}

fn numbered_line(alloc: Global, number: u64) -> Result<Vec<u8>, AllocError>
    ensures { IfOk result (λ line. line.items ≡ line_text (LineFault.Line number)) }
{
    let mut line = Vec::new(alloc);
    push_number(&mut line, b"json: line ", number)?;
    line.push(b'\n')?;
    Ok(line)
}

/// Runs `json --back`: reads the whole input, then writes the bytes of the tags that its lines read as.
pub fn read_json<I: Source, W: Sink>(alloc: Global, input: &mut I, output: &mut W) -> Outcome
    ensures { (around : Around) → IsAnswered json_back_meaning
        (run_over_streams around
        (input_of I.Source input.old)
        (input_of I.Source input.new)
        (output_of W.Sink output.old)
        (output_of W.Sink output.new))
        result }
{
    let answer = input_tags(alloc, input);
    write_result(alloc, output, answer)
}

/// Reads the input to its end. Returns the bytes of the tags that its lines read as.
fn input_tags<I: Source>(alloc: Global, input: &mut I) -> Result<Vec<u8>, Fault<LineFault>>
    ensures given { IfOk result (λ bytes. IsGiven GivesTags
        (input_of I.Source input.old)
        (input_of I.Source input.new)
        no_share bytes.items) }
    ensures cause { IfErr result (λ fault. StopsBack
        (input_of I.Source input.old)
        (input_of I.Source input.new)
        fault) }
{
    let text = match read_within(alloc, input, INPUT_LIMIT) {
        Ok(text) => text,
        Err(error) => return Err(read_fault(error, LineFault::TooLong)),
    };
    text_tags(alloc, text.as_slice())
}

/// Returns the bytes of the tags that the lines of `text` read as, or the first line that is refused.
fn text_tags(alloc: Global, text: &[u8]) -> Result<Vec<u8>, Fault<LineFault>>
    requires { IsWithin text.now }
    ensures given { IfOk result (λ bytes. GivesTags text.now bytes.items) }
    ensures refused { IfErr result (λ fault. IsLinesFault text.now fault) }
{
    let table = CodeTable::standard(alloc)?;
    let mut bytes = Vec::new(alloc);
    let mut left = text;
    let mut line = 0;
    while !left.is_empty() {
        line += 1;
        let Some(rest) = push_first(alloc, &table, left, &mut bytes)? else {
            return Err(Fault::Own(LineFault::Line { line }));
        };
        left = rest;
    }
    Ok(bytes)
}

/// Appends the bytes of the tag that the first line of `text` reads as. Returns what follows the line, or `None` if the
/// line does not read as a tag or has no line feed.
fn push_first<'a>(
    alloc: Global,
    table: &CodeTable,
    text: &'a [u8],
    bytes: &mut Vec<u8>,
) -> Result<Option<&'a [u8]>, AllocError>
    requires rows { table.now ≡ standard_rows }
    requires some { text.now ≢ [] }
    ensures { IfOk result (λ r. MatchOption r (StopsAfter 0 text.now)
        (λ rest. TakesLine text.now rest.now bytes.old.items bytes.new.items)) }
{
    let Some((line, rest)) = split_line(text) else {
        return Ok(None);
    };
    let Some(tag) = tag_of(alloc, table, line)? else {
        return Ok(None);
    };
    push_tag(tag, bytes)?;
    Ok(Some(rest))
}

/// Appends the bytes of `tag`. A line within the limit has no payload that is too long, so only an allocation fails.
fn push_tag(tag: Tag, bytes: &mut Vec<u8>) -> Result<(), AllocError>
    ensures { OnOk result (bytes.new.items ≡ bytes.old.items ++ spelling tag) }
{
    match encode_into(&tag, bytes) {
        Ok(()) => Ok(()),
        Err(_) => Err(AllocError),
    }
}

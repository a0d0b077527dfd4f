//! The command `show --back`: the bytes of the tags that a text shows.

ghost use Rattle.std.specs.Prelude.{◌≡◌, ◌≤◌, length, true, IfOk, IfErr};
ghost use Rattle.std.specs.Str.{is_utf8};
ghost use Rattle.dmap_tags.specs.Spelling.{spellings, are_spellable};
ghost use Rattle.dmap_tags.specs.Tree.{trees_of};
ghost use Rattle.code_table.specs.Standard.{standard_rows};
ghost use Rattle.dmap_show.specs.Readable.{Shows};
ghost use Rattle.command_core.specs.Seen.{Around, input_of, output_of, run_over_streams, no_share};
ghost use Rattle.command_core.specs.Endings.{IsAnswered};
ghost use Rattle.tag_commands.specs.ShowBack.{shown_text_limit, text_line, text_status, line_at, IsShownBack, IsTextFault, StopsReading, show_fault, show_back_meaning};

use code_table::CodeTable;
use command_core::{Fault, Outcome, Refusal, read_fault, write_result};
use dmap_show::{ShowError, read_show};
use dmap_tags::{Tag, TagError, Tags, encode_into};
use fault_lines::push_number;
use outside_net::{Sink, Source, read_within};
use std::alloc::{AllocError, Global};
use std::str;

/// The maximum number of bytes of the input.
const TEXT_LIMIT: u64 = 67_108_864;

/// Why an input is not accepted as shown text.
#[derive(Drop)]
pub enum TextFault {
    /// It is not shown text from this line on, counted from 1.
    Line { line: u64 },
    /// It has more bytes than are read.
    TooLong,
}

impl Refusal for TextFault {
    ghost error_line = { text_line };

    ghost error_status = { text_status };

    fn line(&self, alloc: Global) -> Result<Vec<u8>, AllocError> {
        match self {
            TextFault::Line { line } => numbered_line(alloc, *line),
            TextFault::TooLong => Vec::from_slice(alloc, b"limit: input\n"),
        }
    }

    fn status(&self) -> u8 {
        match self {
            TextFault::Line { .. } => 3,
            TextFault::TooLong => 8,
        }
    }
}

fn numbered_line(alloc: Global, number: u64) -> Result<Vec<u8>, AllocError>
    ensures { IfOk result (λ line. line.items ≡ text_line (TextFault.Line number)) }
{
    let mut line = Vec::new(alloc);
    push_number(&mut line, b"text: line ", number)?;
    line.push(b'\n')?;
    Ok(line)
}

/// Returns the error for a refusal of its text.
fn show_fault(error: ShowError) -> Fault<TextFault>
    ensures { result ≡ show_fault error }
{
    match error {
        ShowError::Line { line } => Fault::Own(TextFault::Line { line }),
        ShowError::Memory => Fault::Memory,
    }
}

/// Runs `show --back`: writes the bytes of the tags that the input shows.
pub fn read_shown<I: Source, W: Sink>(alloc: Global, input: &mut I, output: &mut W) -> Outcome
    ensures { (around : Around) → IsAnswered show_back_meaning
        (run_over_streams around
        (input_of I.Source input.old)
        (input_of I.Source input.new)
        (output_of W.Sink output.old)
        (output_of W.Sink output.new))
        result }
{
    let answer = bytes_shown(alloc, input);
    write_result(alloc, output, answer)
}

/// Reads the input to its end, and returns the bytes of the tags that it shows.
fn bytes_shown<I: Source>(alloc: Global, input: &mut I) -> Result<Vec<u8>, Fault<TextFault>>
    ensures shown { IfOk result (λ bytes. IsShownBack
        (input_of I.Source input.old)
        (input_of I.Source input.new)
        no_share bytes.items) }
    ensures cause { IfErr result (λ fault. StopsReading
        (input_of I.Source input.old)
        (input_of I.Source input.new)
        fault) }
{
    let text = match read_within(alloc, input, TEXT_LIMIT) {
        Ok(text) => text,
        Err(error) => return Err(read_fault(error, TextFault::TooLong)),
    };
    let tags = match tags_shown(alloc, text.as_slice()) {
        Ok(tags) => tags,
        Err(fault) => return Err(fault),
    };
    Ok(bytes_of(alloc, tags.as_slice())?)
}

/// Returns the tags that a text shows.
fn tags_shown(alloc: Global, bytes: &[u8]) -> Result<Tags, Fault<TextFault>>
    requires { length bytes.now ≤ shown_text_limit }
    ensures text { IfOk result (λ _. is_utf8 bytes.now ≡ true) }
    ensures shown { IfOk result (λ tags. Shows standard_rows bytes.now tags) }
    ensures refused { IfErr result (λ fault. IsTextFault bytes.now fault) }
{
    let text = match str::from_utf8(bytes) {
        Ok(text) => text,
        Err(error) => {
            let line = line_at(bytes, error.valid_up_to());
            return Err(Fault::Own(TextFault::Line { line }));
        }
    };
    let table = CodeTable::standard(alloc)?;
    match read_show(alloc, text, &table) {
        Ok(tags) => Ok(tags),
        Err(error) => Err(show_fault(error)),
    }
}

/// Returns the line, counted from 1, of an offset in a text.
fn line_at(text: &[u8], place: usize) -> u64
    requires within { length text.now ≤ shown_text_limit }
    requires there { place ≤ length text.now }
    ensures { result ≡ line_at place text.now }
{
    let (front, _) = text.split_at(place);
    let mut line = 1;
    for byte in front {
        if *byte == b'\n' {
            line += 1;
        }
    }
    line
}

/// Returns the bytes of tags, none of which is too long.
fn bytes_of(alloc: Global, tags: &[Tag]) -> Result<Vec<u8>, AllocError>
    requires { are_spellable (trees_of tags.now) ≡ true }
    ensures { IfOk result (λ bytes. bytes.items ≡ spellings (trees_of tags.now)) }
{
    let mut bytes = Vec::new(alloc);
    for tag in tags {
        match encode_into(tag, &mut bytes) {
            Ok(()) => {}
            Err(TagError::Memory) => return Err(AllocError),
            Err(TagError::TooLong) => unreachable!(),
        }
    }
    Ok(bytes)
}

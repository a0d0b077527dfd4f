//! The command `json`: the JSON of each top-level tag of the input.

ghost use Rattle.std.specs.Prelude.{◌≡◌, ◌≢◌, ◌++◌, [], ℕ, List, IfOk, IfErr, IfSome, MatchResult, OnOk, length, ◌+◌, ◌<◌, ◌^◌};
ghost use Rattle.code_table.specs.Standard.{standard_rows};
ghost use Rattle.dmap_stream.specs.Reader.{ready, taken};
ghost use Rattle.command_core.specs.Seen.{Around, input_of, output_of, run_over_streams, no_share};
ghost use Rattle.command_core.specs.Endings.{IsAnswered};
ghost use Rattle.json_commands.specs.Whole.{IsWithin, IsGiven};
ghost use Rattle.json_commands.specs.Json.{GivesJson, HasTagsFault, IsTagsFault, StopsJson, TakesTag, json_line, json_meaning};
ghost use Rattle.json_commands.specs.Fed.{HasFedAllBut, HasFed};

use crate::whole::{INPUT_LIMIT, TAG_LIMITS};
use code_table::CodeTable;
use command_core::{Fault, Outcome, read_fault, write_result};
use dmap_json::to_json;
use dmap_stream::{DmapReader, StreamError, read_tag};
use dmap_tags::Tag;
use outside_net::{Sink, Source, read_within};
use std::alloc::{AllocError, Global};
use tag_commands::TagsFault;

/// Runs `json`: reads the whole input, then writes a line of JSON for each of its top-level tags.
pub fn write_json<I: Source, W: Sink>(alloc: Global, input: &mut I, output: &mut W) -> Outcome
    ensures { (around : Around) → IsAnswered json_meaning
        (run_over_streams around
        (input_of I.Source input.old)
        (input_of I.Source input.new)
        (output_of W.Sink output.old)
        (output_of W.Sink output.new))
        result }
{
    let answer = input_lines(alloc, input);
    write_result(alloc, output, answer)
}

/// Reads the input to its end. Returns the lines of its tags.
fn input_lines<I: Source>(alloc: Global, input: &mut I) -> Result<Vec<u8>, Fault<TagsFault>>
    ensures given { IfOk result (λ lines. IsGiven GivesJson
        (input_of I.Source input.old)
        (input_of I.Source input.new)
        no_share lines.items) }
    ensures cause { IfErr result (λ fault. StopsJson
        (input_of I.Source input.old)
        (input_of I.Source input.new)
        fault) }
{
    let bytes = match read_within(alloc, input, INPUT_LIMIT) {
        Ok(bytes) => bytes,
        Err(error) => return Err(read_fault(error, TagsFault::TooLong)),
    };
    bytes_lines(alloc, bytes.as_slice())
}

/// Returns the lines of the tags that `bytes` are, or the first malformed tag.
fn bytes_lines(alloc: Global, bytes: &[u8]) -> Result<Vec<u8>, Fault<TagsFault>>
    requires { IsWithin bytes.now }
    ensures given { IfOk result (λ lines. GivesJson bytes.now lines.items) }
    ensures refused { IfErr result (λ fault. IsTagsFault bytes.now fault) }
{
    let table = CodeTable::standard(alloc)?;
    match tag_lines(alloc, &table, bytes)? {
        Some(lines) => Ok(lines),
        None => match first_fault(alloc, &table, bytes) {
            Err(StreamError::Memory) | Ok(()) => Err(Fault::Memory),
            Err(error) => Err(Fault::Own(TagsFault::Broken(error))),
        },
    }
}

/// Returns the lines of the tags that `bytes` are, or `None` if `bytes` are not tags.
fn tag_lines(alloc: Global, table: &CodeTable, bytes: &[u8]) -> Result<Option<Vec<u8>>, AllocError>
    requires { table.now ≡ standard_rows }
    ensures { IfOk result (λ r. IfSome r (λ lines. GivesJson bytes.now lines.items)) }
{
    let mut lines = Vec::new(alloc);
    let mut left = bytes;
    while !left.is_empty() {
        let Some(rest) = push_first(alloc, table, left, &mut lines)? else {
            return Ok(None);
        };
        left = rest;
    }
    Ok(Some(lines))
}

/// Appends the line of the first tag of `bytes`. Returns the bytes after that tag, or `None` if there is no such tag.
fn push_first<'a>(
    alloc: Global,
    table: &CodeTable,
    bytes: &'a [u8],
    lines: &mut Vec<u8>,
) -> Result<Option<&'a [u8]>, AllocError>
    requires { table.now ≡ standard_rows }
    ensures { IfOk result (λ r. IfSome r (λ rest.
        TakesTag bytes.now rest.now lines.old.items lines.new.items)) }
{
    let (tag, len) = match read_tag(alloc, bytes, table, TAG_LIMITS) {
        Ok(found) => found,
        Err(StreamError::Memory) => return Err(AllocError),
        Err(_) => return Ok(None),
    };
    push_line(alloc, table, tag, lines)?;
    let (_, rest) = bytes.split_at(len);
    Ok(Some(rest))
}

/// Appends the line of `tag`.
fn push_line(
    alloc: Global,
    table: &CodeTable,
    tag: Tag,
    lines: &mut Vec<u8>,
) -> Result<(), AllocError>
    ensures { OnOk result (lines.new.items ≡ lines.old.items ++ json_line tag) }
{
    // A tag that was read fits the table, so only an allocation fails here.
    let Ok(text) = to_json(alloc, &tag, table) else {
        return Err(AllocError);
    };
    lines.extend_from_slice(text.as_str().as_bytes())?;
    lines.push(b'\n')?;
    Ok(())
}

/// Returns the error of the first malformed tag of `bytes`, or that they end inside a tag.
fn first_fault(alloc: Global, table: &CodeTable, bytes: &[u8]) -> Result<(), StreamError>
    requires rows { table.now ≡ standard_rows }
    requires within { IsWithin bytes.now }
    ensures { IfErr result (λ error. error ≢ StreamError.Memory → HasTagsFault error bytes.now) }
{
    let mut reader = DmapReader::new(alloc, table, TAG_LIMITS)?;
    let mut left = bytes;
    while !left.is_empty() {
        left = match feed_some(&mut reader, left) {
            Ok(rest) => rest,
            Err(error) => return Err(error),
        };
    }
    reader.finish()
}

/// Feeds `bytes` to `reader` until an event is ready, and drops the event. Returns the bytes that are left.
fn feed_some<'a>(reader: &mut DmapReader, bytes: &'a [u8]) -> Result<&'a [u8], StreamError>
    requires some { bytes.now ≢ [] }
    requires counted { taken reader.old + length bytes.now < 2 ^ 64 }
    ensures { (all : List ℕ) → HasFedAllBut all bytes.now reader.old → MatchResult result
        (λ rest. HasFedAllBut all rest.now reader.new × (length rest.now < length bytes.now))
        (λ error. error ≢ StreamError.Memory → HasTagsFault error all) }
{
    let taken = match reader.feed(bytes) {
        Ok(taken) => taken,
        Err(error) => return Err(error),
    };
    skip_events(reader);
    let (_, rest) = bytes.split_at(taken);
    Ok(rest)
}

/// Drops the events that are ready.
fn skip_events(reader: &mut DmapReader)
    ensures quiet { ready reader.new ≡ [] }
    ensures same { (reader.new.rows ≡ reader.old.rows)
        × ((reader.new.limit ≡ reader.old.limit) × (reader.new.error ≡ reader.old.error)) }
    ensures read { (fed : List ℕ) → HasFed fed reader.old → HasFed fed reader.new }
{
    while reader.next().is_some() {}
}

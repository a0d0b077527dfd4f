//! `list` of `share_commands`: what is refused before the input is read, and an input that is too long.

use crate::runs::{Pieces, Ran, WHOLE, has_left, left, sink, source};
use command_core::Outcome;
use dmap_tags::Text;
use item_model::Target;
use outside_net::{Sink, Source};
use share_commands::list_share;
use std::alloc::{AllocError, Global};
use std::process::Abort;
use std::test::Fail;

fn text_of(alloc: Global, text: Option<&str>) -> Result<Option<Text>, AllocError> {
    match text {
        Some(text) => Ok(Some(Text::of(alloc, text)?)),
        None => Ok(None),
    }
}

// Without clauses, so that other proofs do not unfold the specification of the command.
fn listed<I: Source, W: Sink>(
    alloc: Global,
    query: Option<&str>,
    meta: Option<&str>,
    input: &mut I,
    output: &mut W,
) -> Result<Outcome, AllocError> {
    let query = text_of(alloc, query)?;
    let meta = text_of(alloc, meta)?;
    Ok(list_share(
        alloc,
        query.as_ref(),
        meta.as_ref(),
        Target::Items,
        input,
        output,
    ))
}

fn list_over(
    alloc: Global,
    query: Option<&str>,
    meta: Option<&str>,
    records: &[u8],
    pieces: Pieces,
) -> Result<Ran, AllocError> {
    let mut input = source(alloc, records, pieces)?;
    let mut output = sink(alloc, pieces)?;
    let outcome = listed(alloc, query, meta, &mut input, &mut output)?;
    Ok(left(outcome, output))
}

const UNREADABLE: Pieces = Pieces {
    failed_read: 1,
    ..WHOLE
};

/// Checks that `list` refuses the texts with status 3 and `line`, and does not read its input.
fn is_refused(
    rt: &impl Abort,
    alloc: Global,
    query: Option<&str>,
    meta: Option<&str>,
    line: &str,
) -> Result<(), Fail> {
    let ran = list_over(alloc, query, meta, b"op,x\n", UNREADABLE)?;
    has_left(rt, &ran, 3, line.as_bytes())
}

#[test]
fn names_are_refused_behind_the_query(rt: HostRuntime) -> Result<(), Fail> {
    let alloc = rt.alloc();
    let names = ",".repeat(alloc, 256)?;
    is_refused(
        &rt,
        alloc,
        None,
        Some(names.as_str()),
        "meta: too many names\n",
    )?;
    is_refused(
        &rt,
        alloc,
        Some("x"),
        Some(names.as_str()),
        "query: at 0 byte\n",
    )
}

#[test]
fn an_input_has_at_most_four_mebibytes(rt: HostRuntime) -> Result<(), Fail> {
    let alloc = rt.alloc();
    let mut text = Vec::new(alloc);
    text.resize(4_194_305, b'\n')?;
    let ran = list_over(alloc, None, None, text.as_slice(), WHOLE)?;
    has_left(&rt, &ran, 8, b"limit: input\n")
}

//! `follow` of `link_commands`: shares whose replies are known.

use crate::known::{ONE_ROUND, TWO_ROUNDS, replies};
use crate::nets::{Ran, has_sent, has_told, net_of, output};
use dmap_tags::Text;
use item_model::Target;
use link_commands::follow_share;
use outside_net::{MemSink, Net, Sink};
use std::alloc::{AllocError, Global};
use std::process::Abort;
use std::test::Fail;

fn text_of(alloc: Global, text: Option<&str>) -> Result<Option<Text>, AllocError> {
    match text {
        Some(text) => Ok(Some(Text::of(alloc, text)?)),
        None => Ok(None),
    }
}

// Without clauses, so that other proofs do not unfold the specification of the command.
fn followed<W: Sink, N: Net>(
    alloc: Global,
    query: Option<&str>,
    meta: Option<&str>,
    output: &mut W,
    net: &mut N,
) -> Result<u8, AllocError> {
    let query = text_of(alloc, query)?;
    let meta = text_of(alloc, meta)?;
    let outcome = follow_share(
        alloc,
        "here:3689",
        2,
        query.as_ref(),
        meta.as_ref(),
        Target::Items,
        output,
        net,
    );
    Ok(outcome.status)
}

/// Follows a share that replies with `input` for two rounds, and writes to `output`.
fn follow_to(
    alloc: Global,
    query: Option<&str>,
    meta: Option<&str>,
    input: &[u8],
    mut output: MemSink,
) -> Result<Ran, AllocError> {
    let mut net = net_of(alloc, input, 0)?;
    let status = followed(alloc, query, meta, &mut output, &mut net)?;
    Ok(Ran {
        status,
        output: output.into_taken(),
        net,
    })
}

/// Follows a share that replies with `input` for two rounds.
fn follow(
    alloc: Global,
    query: Option<&str>,
    meta: Option<&str>,
    input: &[u8],
) -> Result<Ran, AllocError> {
    follow_to(alloc, query, meta, input, output(alloc)?)
}

#[test]
fn two_rounds_are_told(rt: HostRuntime) -> Result<(), Fail> {
    let alloc = rt.alloc();
    let input = replies(alloc, "codes login item revision dropped done")?;
    let ran = follow(alloc, None, None, input.as_slice())?;
    has_told(
        &rt,
        &ran,
        0,
        b"revision 3 full put 1 drop 0 rows 1\nrevision 4 delta put 0 drop 1 rows 0\nmlcl list\n",
    )?;
    assert!(rt; has_sent(&ran.net, TWO_ROUNDS));
    Ok(())
}

// The output takes ten bytes of the first line, and then fails.
#[test]
fn no_request_follows_an_output_that_failed(rt: HostRuntime) -> Result<(), Fail> {
    let alloc = rt.alloc();
    let input = replies(alloc, "codes login item revision dropped done")?;
    let output = MemSink::new(alloc, 10, 4096, &[])?;
    let ran = follow_to(alloc, None, None, input.as_slice(), output)?;
    has_told(&rt, &ran, 5, b"revision 3")?;
    assert!(rt; has_sent(&ran.net, ONE_ROUND));
    Ok(())
}

/// Checks that `follow` refuses the texts of `--query` and `--meta` with `line`, and does not connect.
fn is_refused(
    rt: &impl Abort,
    alloc: Global,
    query: Option<&str>,
    meta: Option<&str>,
    line: &[u8],
) -> Result<(), Fail> {
    let ran = follow(alloc, query, meta, b"")?;
    has_told(rt, &ran, 3, line)?;
    assert!(rt; matches!(ran.net.asked(), Some([])));
    Ok(())
}

#[test]
fn texts_are_refused_before_the_net_is_asked(rt: HostRuntime) -> Result<(), Fail> {
    let alloc = rt.alloc();
    is_refused(&rt, alloc, Some("'a;1'"), None, b"query: at 2 byte\n")?;
    let names = ",".repeat(alloc, 256)?;
    is_refused(
        &rt,
        alloc,
        None,
        Some(names.as_str()),
        b"meta: too many names\n",
    )
}

/// Replies that end the first or the second of two rounds, and the output.
type Answer = (&'static str, &'static [u8]);

fn all_are_told(rt: &impl Abort, alloc: Global, answers: &[Answer]) -> Result<(), Fail> {
    for (names, lines) in answers {
        let input = replies(alloc, names)?;
        let ran = follow(alloc, None, None, input.as_slice())?;
        has_told(rt, &ran, 7, lines)?;
    }
    Ok(())
}

const ANSWERS: [Answer; 4] = [
    (
        "codes login item unavailable codes",
        b"revision 3 full put 1 drop 0 rows 1\npeer: refused 503\n",
    ),
    (
        "codes login item revision done",
        b"revision 3 full put 1 drop 0 rows 1\npeer: refused 204\n",
    ),
    ("login codes codes codes codes", b"peer: codes\n"),
    (
        "codes login item revision nothing",
        b"revision 3 full put 1 drop 0 rows 1\npeer: listing\n",
    ),
];

#[test]
fn other_answers_are_told(rt: HostRuntime) -> Result<(), Fail> {
    all_are_told(&rt, rt.alloc(), &ANSWERS)
}

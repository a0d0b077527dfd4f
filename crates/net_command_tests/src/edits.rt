//! `edit` of `link_commands`: what shares make of edits and stops.

use crate::known::{EDIT, STOP, replies};
use crate::nets::{Ran, has_sent, has_told, net_of, no_net, output};
use link_commands::edit_share;
use outside_net::{MemNet, MemSource, Net, Sink, Source};
use std::alloc::{AllocError, Global};
use std::process::Abort;
use std::test::Fail;

// Without clauses, so that other proofs do not unfold the specification of the command.
fn edited<I: Source, W: Sink, N: Net>(
    alloc: Global,
    stop: bool,
    input: &mut I,
    output: &mut W,
    net: &mut N,
) -> u8 {
    edit_share(alloc, "here:3689", stop, input, output, net).status
}

/// Runs `edit` with the records of these tests, or a stop, over `net`.
fn edit(alloc: Global, mut net: MemNet, stop: bool) -> Result<Ran, AllocError> {
    let mut input = MemSource::new(alloc, b"op,kind,id\n", 4, &[])?;
    let mut output = output(alloc)?;
    let status = edited(alloc, stop, &mut input, &mut output, &mut net);
    Ok(Ran {
        status,
        output: output.into_taken(),
        net,
    })
}

/// A reply, whether it is to a stop, the status, and a prefix of the output.
type Edit = (&'static str, bool, u8, &'static [u8]);

fn all_are_told(rt: &impl Abort, alloc: Global, edits: &[Edit]) -> Result<(), Fail> {
    for (name, stop, end, line) in edits {
        let input = replies(alloc, name)?;
        let ran = edit(alloc, net_of(alloc, input.as_slice(), 0)?, *stop)?;
        assert_eq!(rt; ran.status, *end);
        assert!(rt; ran.output.as_slice().starts_with(line));
        assert!(rt; has_sent(&ran.net, if *stop { STOP } else { EDIT }));
    }
    Ok(())
}

const EDITS: [Edit; 7] = [
    ("revision", false, 0, b"revision 4\n"),
    ("done", false, 0, b"unchanged\n"),
    ("done", true, 0, b"stopped\n"),
    ("unavailable", true, 7, b"peer: refused 503\n"),
    (
        "revision",
        true,
        7,
        b"peer: refused 200\nmupd\0\0\0\x18mstt\0\0\0\x04\0\0\0",
    ),
    (
        "record",
        false,
        7,
        b"peer: refused 400\nrecords: record 3 column 4 number\n",
    ),
    ("login", false, 7, b"peer: bad reply at 71\n"),
];

#[test]
fn edits_and_stops_are_told(rt: HostRuntime) -> Result<(), Fail> {
    let alloc = rt.alloc();
    all_are_told(&rt, alloc, &EDITS)?;
    let ran = edit(alloc, net_of(alloc, b"HTTP/1.1 20", 0)?, false)?;
    has_told(&rt, &ran, 7, b"peer: ended at 11\n")
}

/// Checks that a stop over `net` is told as a failure of the network.
fn fails(rt: &impl Abort, alloc: Global, net: MemNet) -> Result<(), Fail> {
    let ran = edit(alloc, net, true)?;
    has_told(rt, &ran, 6, b"network failed\n")
}

#[test]
fn a_network_that_fails_is_told(rt: HostRuntime) -> Result<(), Fail> {
    let alloc = rt.alloc();
    fails(&rt, alloc, no_net(alloc)?)?;
    let unsent = net_of(alloc, b"", 1)?;
    fails(&rt, alloc, unsent)
}

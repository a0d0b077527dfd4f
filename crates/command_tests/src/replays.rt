//! `replay`: a read and a write that fail, and the entries that are left.

use crate::runs::{Pieces, Ran, WHOLE, has_left, left, sink, source};
use command_core::Outcome;
use outside_net::{Sink, Source};
use share_commands::replay_script;
use std::alloc::{AllocError, Global};
use std::process::Abort;
use std::test::Fail;

/// A login, and then a stop.
const SCRIPT: &[u8] =
    b"open 1 edit\ntext 1 GET /login HTTP/1.1\\r\\n\\r\\n\ntext 1 POST /stop HTTP/1.1\\r\\n\\r\\n\n";

/// The first reply, without the line feed after it.
const FIRST_REPLY: &[u8] =
    b"> 1 112\nHTTP/1.1 200 OK\r\nContent-Type: application/x-dmap-tagged\r\nContent-Length: 32\r\n\r\nmlog\0\0\0\x18mstt\0\0\0\x04\0\0\0\xc8mlid\0\0\0\x04\0\0\0\x01";

// Without clauses, so that other proofs do not unfold the specification of the command.
fn replayed<I: Source, W: Sink>(alloc: Global, input: &mut I, output: &mut W) -> Outcome {
    replay_script(alloc, 256, "daapshare", input, output)
}

fn run_over(alloc: Global, pieces: Pieces) -> Result<Ran, AllocError> {
    let mut input = source(alloc, SCRIPT, pieces)?;
    let mut output = sink(alloc, pieces)?;
    let outcome = replayed(alloc, &mut input, &mut output);
    Ok(left(outcome, output))
}

/// How the script is read and the output written, the status, the output, and the number of entries of the share.
type Replay = (Pieces, u8, &'static [u8], Option<usize>);

fn all_end(rt: &impl Abort, alloc: Global, replays: &[Replay]) -> Result<(), Fail> {
    for (pieces, status, output, entries) in replays {
        let ran = run_over(alloc, *pieces)?;
        has_left(rt, &ran, *status, output)?;
        assert_eq!(rt; ran.entries, *entries);
    }
    Ok(())
}

const REPLAYS: [Replay; 2] = [
    (
        Pieces {
            read: 7,
            failed_read: 2,
            ..WHOLE
        },
        4,
        b"read failed\n",
        None,
    ),
    (
        Pieces {
            read: 7,
            failed_write: 3,
            ..WHOLE
        },
        5,
        FIRST_REPLY,
        Some(1),
    ),
];

#[test]
fn a_call_that_fails_ends_the_script(rt: HostRuntime) -> Result<(), Fail> {
    all_end(&rt, rt.alloc(), &REPLAYS)
}

//! `share_replay`: a script that is played to a share, with a sink that fails.

use item_model::{Batch, Edits};
use outside_net::MemSink;
use share_core::Share;
use share_replay::{ReplayError, Script, replay};
use std::alloc::{AllocError, Global};
use std::test::Fail;

fn read(alloc: Global, text: &[u8]) -> Result<Script, AllocError> {
    match Script::read(alloc, text) {
        Ok(script) => Ok(script),
        Err(_) => Err(AllocError),
    }
}

fn opened(alloc: Global) -> Result<Share, AllocError> {
    let first = Batch {
        edits: Edits::new(alloc),
    };
    match Share::open(alloc, "daapshare", 256, first) {
        Ok(share) => Ok(share),
        Err(_) => Err(AllocError),
    }
}

/// How a replay to a share named `daapshare` ended, the bytes that its sink took, and how many entries the share then
/// has.
#[derive(Drop)]
struct Outcome {
    end: Result<(), ReplayError>,
    output: Vec<u8>,
    entries: u64,
}

// Each of these functions owns one more value, and drops it in one place: that keeps their proofs small.
fn play(
    alloc: Global,
    script: &Script,
    share: &mut Share,
    sink: &mut MemSink,
) -> Result<Outcome, AllocError> {
    let end = replay(alloc, script, share, sink);
    Ok(Outcome {
        end,
        output: Vec::from_slice(alloc, sink.taken())?,
        entries: share.len(),
    })
}

fn play_to_sink(
    alloc: Global,
    script: &Script,
    share: &mut Share,
    failing: &[u64],
) -> Result<Outcome, AllocError> {
    let mut sink = MemSink::new(alloc, 65_536, 65_536, failing)?;
    play(alloc, script, share, &mut sink)
}

fn play_to_share(alloc: Global, script: &Script, failing: &[u64]) -> Result<Outcome, AllocError> {
    let mut share = opened(alloc)?;
    play_to_sink(alloc, script, &mut share, failing)
}

fn played(alloc: Global, text: &[u8], failing: &[u64]) -> Result<Outcome, AllocError> {
    let script = read(alloc, text)?;
    play_to_share(alloc, &script, failing)
}

const STOPPED: &str =
    "open 1 edit\ntext 1 GET /login HTTP/1.1\\r\\n\\r\\nPOST /stop HTTP/1.1\\r\\n\\r\\n\n";

/// Returns the end of what the sink takes if it fails at the line of the connection's end.
fn stopped_front() -> &'static [u8] {
    b"\x04\0\0\0\x01\n> 1 46\nHTTP/1.1 204 No Content\r\nConnection: close\r\n\r\n"
}

#[test]
fn a_sink_that_fails_has_a_front_of_the_output(rt: HostRuntime) -> Result<(), Fail> {
    let played = played(rt.alloc(), STOPPED.as_bytes(), &[5])?;
    assert!(rt; matches!(played.end, Err(ReplayError::Failed)));
    assert!(rt; played.output.ends_with(stopped_front()));
    assert!(rt; played.entries == 2);
    Ok(())
}

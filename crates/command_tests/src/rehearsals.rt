//! `rehearse` of `share_commands`: batches made from a number, and what their mirrors hold.

use crate::runs::{WHOLE, has_left, left, sink};
use command_core::Outcome;
use outside_net::Sink;
use share_commands::rehearse_share;
use std::alloc::Global;
use std::test::Fail;

// Without clauses, so that other proofs do not unfold the specification of the command.
fn rehearsed<W: Sink>(alloc: Global, numbers: [u32; 3], output: &mut W) -> Outcome {
    let [number, batches, size] = numbers;
    let (batches, size) = (batches.clamp(1, 65_536), size.clamp(1, 256));
    rehearse_share(alloc, number.min(1), batches, size, 256, output)
}

/// The output of a rehearsal with as many edits as a history may have. The summary is that of another program.
const SUMMARY: &[u8] =
    b"revision 1026\nitems 3027\nmirror 1 rows 3027 full 1 delta 1023\nmirror 2 rows 1331 full 1 delta 341\nmirror 3 rows 33 full 3 delta 1\n";

#[test]
fn a_rehearsal_tells_what_its_mirrors_hold(rt: HostRuntime) -> Result<(), Fail> {
    let alloc = rt.alloc();
    let mut taken = sink(alloc, WHOLE)?;
    let outcome = rehearsed(alloc, [1, 1024, 256], &mut taken);
    let ran = left(outcome, taken);
    has_left(&rt, &ran, 0, SUMMARY)
}

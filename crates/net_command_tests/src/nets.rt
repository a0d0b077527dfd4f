//! Networks in memory, and what a command leaves there.

use outside_net::{MemLink, MemNet, MemSink, MemSource};
use std::alloc::{AllocError, Global};
use std::process::Abort;
use std::test::Fail;

/// Returns a network with one connection, whose input is `input`. Reads and writes have at most 50 bytes; the write with
/// the number `failed_write` fails (0: none).
pub(crate) fn net_of(alloc: Global, input: &[u8], failed_write: u64) -> Result<MemNet, AllocError> {
    let mut net = MemNet::with_room(alloc, &[], 2, 2)?;
    let input = MemSource::new(alloc, input, 50, &[])?;
    let output = MemSink::new(alloc, 4096, 50, &[failed_write])?;
    net.add_link(MemLink::new(input, output))?;
    Ok(net)
}

/// Returns a network without connections.
pub(crate) fn no_net(alloc: Global) -> Result<MemNet, AllocError> {
    MemNet::with_room(alloc, &[], 1, 1)
}

pub(crate) fn output(alloc: Global) -> Result<MemSink, AllocError> {
    MemSink::new(alloc, 4096, 4096, &[])
}

/// What a command left: its status, its output, and the net.
#[derive(Drop)]
pub(crate) struct Ran {
    pub(crate) status: u8,
    pub(crate) output: Vec<u8>,
    pub(crate) net: MemNet,
}

/// Checks the status and the output of the command.
pub(crate) fn has_told(rt: &impl Abort, ran: &Ran, status: u8, lines: &[u8]) -> Result<(), Fail> {
    assert_eq!(rt; ran.status, status);
    assert_eq!(rt; ran.output.as_slice(), lines);
    Ok(())
}

/// Returns whether `connect` was called once, for the address of these tests, and one connection was closed, which took
/// `bytes`.
pub(crate) fn has_sent(net: &MemNet, bytes: &[u8]) -> bool {
    let (Some([asked]), Some([returned])) = (net.asked(), net.written()) else {
        return false;
    };
    asked.place() == b"here:3689".as_slice()
        && asked.listeners() == 0
        && returned.bytes.as_slice() == bytes
}

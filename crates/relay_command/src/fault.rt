//! Errors of `relay`, and which of two counts more.

ghost use Rattle.std.specs.Prelude.{◌≡◌, IfOk};
ghost use Rattle.relay_command.specs.Faults.{relay_line, relay_status, net_fault, crew_fault, end_fault, rank_of, worse_of};

use command_core::{Fault, Refusal};
use fault_lines::push_number;
use link_commands::FollowFault;
use outside_net::NetError;
use relay_share::RelayEnd;
use share_crew::Verdict;
use std::alloc::{AllocError, Global};

/// Errors of `relay`. Out of memory is `Fault::Memory`.
#[derive(Drop)]
pub enum RelayFault {
    /// An address was not reached or not opened, a listener failed, or the connection failed.
    Network,
    /// A worker reached its limit.
    Requests,
    /// The relay's share has no capacity for a listing.
    Library,
    /// Row `index` of a listing cannot be read.
    Row { index: u64 },
    /// The followed share did not answer as it should.
    Peer(FollowFault),
}

impl Refusal for RelayFault {
    ghost error_line = { relay_line };

    ghost error_status = { relay_status };

    fn line(&self, alloc: Global) -> Result<Vec<u8>, AllocError> {
        match self {
            RelayFault::Network => Vec::from_slice(alloc, b"network failed\n"),
            RelayFault::Requests => Vec::from_slice(alloc, b"limit: requests\n"),
            RelayFault::Library => Vec::from_slice(alloc, b"limit: library\n"),
            RelayFault::Row { index } => row_line(alloc, *index),
            RelayFault::Peer(fault) => fault.line(alloc),
        }
    }

    fn status(&self) -> u8 {
        match self {
            RelayFault::Network => 6,
            RelayFault::Requests | RelayFault::Library => 8,
            RelayFault::Row { .. } => 7,
            RelayFault::Peer(fault) => fault.status(),
        }
    }
}

fn row_line(alloc: Global, index: u64) -> Result<Vec<u8>, AllocError>
    ensures { IfOk result (λ line. line.items ≡ relay_line (RelayFault.Row index)) }
{
    let mut line = Vec::new(alloc);
    push_number(&mut line, b"peer: row ", index)?;
    line.push(b'\n')?;
    Ok(line)
}

/// Returns the error of an address that was not opened.
pub(crate) fn net_fault(error: NetError) -> Fault<RelayFault>
    ensures { result ≡ net_fault error }
{
    match error {
        NetError::Failed => Fault::Own(RelayFault::Network),
        NetError::Memory => Fault::Memory,
    }
}

/// Returns the error of workers and a relay that have ended: the one that counts more, and of two alike the workers'.
pub(crate) fn worse_fault(verdict: Verdict, end: RelayEnd) -> Option<Fault<RelayFault>>
    ensures { result ≡ worse_of (crew_fault verdict) (end_fault end) }
{
    let crew = crew_fault(verdict);
    let relay = end_fault(end);
    if rank_of(&relay) <= rank_of(&crew) {
        crew
    } else {
        relay
    }
}

// Workers without a keeper lose no edit, so `FileFailed` does not occur.
fn crew_fault(verdict: Verdict) -> Option<Fault<RelayFault>>
    ensures { result ≡ crew_fault verdict }
{
    match verdict {
        Verdict::Done => None,
        Verdict::NetworkFailed | Verdict::FileFailed => Some(Fault::Own(RelayFault::Network)),
        Verdict::OutOfMemory => Some(Fault::Memory),
        Verdict::Exhausted => Some(Fault::Own(RelayFault::Requests)),
    }
}

// No other lock handle stops a relay's share, so `Stopped` does not occur.
fn end_fault(end: RelayEnd) -> Option<Fault<RelayFault>>
    ensures { result ≡ end_fault end }
{
    match end {
        RelayEnd::Done | RelayEnd::Stopped => None,
        RelayEnd::Row { index } => Some(Fault::Own(RelayFault::Row { index })),
        RelayEnd::Full => Some(Fault::Own(RelayFault::Library)),
        RelayEnd::Memory => Some(Fault::Memory),
        RelayEnd::Peer(error) => Some(Fault::Own(RelayFault::Peer(FollowFault::Link(error)))),
    }
}

/// Returns how much an error counts: the network's before out of memory, then a limit, then the peer's.
pub(crate) fn rank_of(fault: &Option<Fault<RelayFault>>) -> u8
    ensures { result ≡ rank_of fault.now }
{
    match fault {
        None => 0,
        Some(fault) => match fault.status() {
            6 => 4,
            9 => 3,
            8 => 2,
            _ => 1,
        },
    }
}

//! `relay_command`: relays of shares whose replies are known, with a player that sends no request.

ghost use Rattle.std.specs.Prelude.{IfOk};
ghost use Rattle.relay_command.specs.Terms.{MayRelay};

use crate::known::replies;
use crate::shares::listener;
use dmap_tags::Text;
use outside_net::{MemLink, MemListener, MemNet, MemSink, MemSource, Net, Sink};
use relay_command::{Relaying, relay};
use share_crew::Outcome;
use std::alloc::{AllocError, Global};
use std::process::Abort;
use std::sync::Wait;
use std::test::Fail;
use std::thread::Threads;
use std::time::Clock;

/// Returns the settings of a relay of two rounds, with the default name and one worker.
fn terms(alloc: Global) -> Result<Relaying, AllocError>
    ensures { IfOk result MayRelay }
{
    Ok(Relaying {
        upstream: Text::of(alloc, "there:3689")?,
        listen: Text::of(alloc, "here:3689")?,
        rounds: 2,
        name: Text::of(alloc, "daapshare")?,
        keep: 256,
        workers: 1,
    })
}

// Without clauses, so that other proofs do not unfold the specification of the command.
fn relayed<W: Sink, N: Net, R: Threads + Wait + Clock + Sync>(
    rt: &R,
    alloc: Global,
    output: &mut W,
    net: &mut N,
) -> Result<Outcome, AllocError> {
    let terms = terms(alloc)?;
    Ok(relay(rt, alloc, &terms, output, net))
}

/// Returns a network with a connection with the replies `names`, a listener with a player that sends no request, and
/// the relay's listener.
fn net_of(alloc: Global, names: &str) -> Result<MemNet, AllocError> {
    let mut net = MemNet::with_room(alloc, &[], 4, 8)?;
    let input = MemSource::new(alloc, replies(alloc, names)?.as_slice(), 50, &[])?;
    net.add_link(MemLink::new(input, MemSink::new(alloc, 4096, 50, &[])?))?;
    net.add_listener(listener(alloc, b"", 0)?)?;
    net.add_listener(MemListener::new(alloc, &[], 1)?)?;
    Ok(net)
}

/// What a run left: its status and its output.
#[derive(Drop)]
struct Ran {
    status: u8,
    output: Vec<u8>,
}

/// Relays a share with the replies `names`.
fn run<R: Threads + Wait + Clock + Sync>(
    rt: &R,
    alloc: Global,
    names: &str,
) -> Result<Ran, AllocError> {
    let mut net = net_of(alloc, names)?;
    let mut output = MemSink::new(alloc, 4096, 4096, &[])?;
    let outcome = relayed(rt, alloc, &mut output, &mut net)?;
    Ok(Ran {
        status: outcome.status,
        output: output.into_taken(),
    })
}

/// The replies of a share, and the status and the output of its relay.
type Relayed = (&'static str, u8, &'static [u8]);

const RELAYED: [Relayed; 4] = [
    (
        "codes login item revision dropped done",
        0,
        b"relaying daapshare\nupstream 3 full puts 1 drops 0 revision 3\nupstream 4 delta puts 0 drops 1 revision 4\nended at revision 4, links 1, requests 0\n",
    ),
    // An item that is put again changes nothing.
    (
        "codes login item revision same done",
        0,
        b"relaying daapshare\nupstream 3 full puts 1 drops 0 revision 3\nupstream 4 delta puts 0 drops 0 revision 3\nended at revision 3, links 1, requests 0\n",
    ),
    (
        "codes login item unavailable",
        7,
        b"relaying daapshare\nupstream 3 full puts 1 drops 0 revision 3\npeer: refused 503\n",
    ),
    (
        "codes login item forbidden",
        7,
        b"relaying daapshare\nupstream 3 full puts 1 drops 0 revision 3\npeer: refused 403\n",
    ),
];

fn all_end<R: Threads + Wait + Clock + Sync + Abort>(
    rt: &R,
    alloc: Global,
    rows: &[Relayed],
) -> Result<(), Fail> {
    for (names, status, output) in rows {
        let ran = run(rt, alloc, names)?;
        assert_eq!(rt; ran.status, *status);
        assert_eq!(rt; ran.output.as_slice(), *output);
    }
    Ok(())
}

#[test]
fn shares_are_relayed(rt: HostRuntime) -> Result<(), Fail> {
    all_end(&rt, rt.alloc(), &RELAYED)
}

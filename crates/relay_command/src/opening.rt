//! Opens what a relay needs before it serves: the connection to the followed share, the listeners, and a share under
//! its lock.

ghost use Rattle.std.specs.Prelude.{◌≡◌, ◌+◌, map, length, IfOk, IfErr, OnErr, MatchResult};
ghost use Rattle.command_core.specs.Seen.{net_of, output_of};
ghost use Rattle.share_crew.specs.Begun.{HasRoom};
ghost use Rattle.share_crew.specs.Listeners.{AreNew};
ghost use Rattle.relay_command.specs.Begun.{HasBegun, NotAnnounced};
ghost use Rattle.relay_command.specs.Lines.{relaying_line};
ghost use Rattle.relay_command.specs.Places.{HasOpened, FailsToOpen};
ghost use Rattle.relay_command.specs.Terms.{MayRelay, empty_share};

use crate::fault::{RelayFault, net_fault};
use crate::terms::Relaying;
use command_core::{Fault, out_of_memory};
use item_model::{Batch, Edits};
use outside_net::{Failed, Net, Sink};
use share_core::Share;
use share_crew::{LockedShare, WorkerBuffers, write_and_lock};
use std::alloc::{AllocError, Global};

/// The connection to the followed share, and the listeners of the relay, before their first use.
#[derive(Drop)]
pub(crate) struct Places<K, D> {
    pub(crate) link: K,
    pub(crate) listeners: Vec<D>,
}

/// Connects to the share that is followed, and then opens the address of the players. If that fails, closes the
/// connection.
pub(crate) fn open_addresses<N: Net>(
    net: &mut N,
    relaying: &Relaying,
) -> Result<Places<N::L, N::D>, Fault<RelayFault>>
    requires { MayRelay relaying.now }
    ensures opened { IfOk result (λ p. HasOpened relaying.now
        (net_of N.Net net.old)
        (net_of N.Net net.new)
        (N.L.taken p.link) (N.L.left p.link) (N.L.faults p.link) (map N.D.coming p.listeners.items)) }
    ensures listeners { IfOk result
        (λ p. AreNew N.D.written N.D.faults (N.written net.old) p.listeners.items) }
    ensures failed { IfErr result (λ stop. FailsToOpen relaying.now
        (net_of N.Net net.old)
        (net_of N.Net net.new)
        stop) }
    ensures opens { IfOk result (λ p. N.open_count net.new
        ≡ N.open_count net.old + (length p.listeners.items + 1)) }
    ensures closes { OnErr result (N.open_count net.new ≡ N.open_count net.old) }
{
    let link = match net.connect(relaying.upstream.as_str()) {
        Ok(link) => link,
        Err(Failed) => return Err(Fault::Own(RelayFault::Network)),
    };
    match net.listen(relaying.listen.as_str(), relaying.workers + 1) {
        Ok(listeners) => Ok(Places { link, listeners }),
        Err(error) => {
            net.close(link);
            Err(net_fault(error))
        }
    }
}

/// Opens an empty share, writes its line, and puts it under a lock.
///
/// # Errors
///
/// Returns the status that the program ends with: 5 if the output failed, and 9 if an allocation failed and the line of
/// that was written.
pub(crate) fn begin<W: Sink, D: Drop>(
    alloc: Global,
    relaying: &Relaying,
    output: &mut W,
) -> Result<LockedShare<D>, u8>
    requires may { MayRelay relaying.now }
    ensures { MatchResult result
        (HasBegun relaying.now
        (output_of W.Sink output.old)
        (output_of W.Sink output.new))
        (NotAnnounced (relaying_line relaying.now.name)
        (output_of W.Sink output.old)
        (output_of W.Sink output.new)) }
{
    match prepare(alloc, relaying) {
        Ok(Prepared { share, line, room }) => write_and_lock(
            alloc,
            output,
            line.as_slice(),
            share,
            relaying.workers + 2,
            room,
        ),
        Err(AllocError) => Err(out_of_memory(output, None).status),
    }
}

// An empty share, its first line, and the capacity for its workers.
struct Prepared<D> {
    share: Share,
    line: Vec<u8>,
    room: WorkerBuffers<D>,
}

fn prepare<D: Drop>(alloc: Global, relaying: &Relaying) -> Result<Prepared<D>, AllocError>
    requires { MayRelay relaying.now }
    ensures share { IfOk result (λ p. p.share ≡ empty_share relaying.now) }
    ensures line { IfOk result (λ p. p.line.items ≡ relaying_line relaying.now.name) }
    ensures room { IfOk result (λ p. HasRoom relaying.now.workers p.room) }
{
    let none = Batch {
        edits: Edits::new(alloc),
    };
    let Ok(share) = Share::open(alloc, relaying.name.as_str(), relaying.keep, none) else {
        return Err(AllocError);
    };
    Ok(Prepared {
        share,
        line: line_of(alloc, relaying)?,
        room: WorkerBuffers::of(alloc, relaying.workers as usize)?,
    })
}

fn line_of(alloc: Global, relaying: &Relaying) -> Result<Vec<u8>, AllocError>
    ensures { IfOk result (λ line. line.items ≡ relaying_line relaying.now.name) }
{
    let mut line = Vec::from_slice(alloc, b"relaying ")?;
    line.extend_from_slice(relaying.name.as_str().as_bytes())?;
    line.push(b'\n')?;
    Ok(line)
}

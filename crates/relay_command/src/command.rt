//! The command `relay`.

ghost use Rattle.std.specs.Prelude.{◌≡◌, ◌+◌, ◌-◌, length, map};
ghost use Rattle.command_core.specs.Seen.{NetSeen, net_of, output_of};
ghost use Rattle.share_crew.specs.Listeners.{AreNew};
ghost use Rattle.relay_command.specs.Places.{HasOpened, HasClosedUnused};
ghost use Rattle.relay_command.specs.Runs.{HasNoShare, RelayEnds};
ghost use Rattle.relay_command.specs.Terms.{MayRelay};

use crate::opening::{Places, begin, open_addresses};
use crate::running::relay_locked;
use crate::terms::Relaying;
use command_core::write_error;
use outside_net::{Net, Sink};
use share_crew::{LinkReports, Outcome, close_all};
use std::alloc::Global;
use std::sync::Wait;
use std::thread::Threads;
use std::time::Clock;

/// Follows a share for the listings that `relaying` names, and serves its items to players until the last listing was
/// read or the share could not be followed further.
pub fn relay<W: Sink, N: Net, R: Threads + Wait + Clock + Sync>(
    rt: &R,
    alloc: Global,
    relaying: &Relaying,
    output: &mut W,
    net: &mut N,
) -> Outcome
    requires { MayRelay relaying.now }
    ensures ends { RelayEnds relaying.now
        (net_of N.Net net.old)
        (net_of N.Net net.new)
        (output_of W.Sink output.old)
        (output_of W.Sink output.new)
        result }
    ensures open_stays { N.open_count net.new ≡ N.open_count net.old }
{
    match open_addresses(net, relaying) {
        Ok(places) => match begin(alloc, relaying, output) {
            Ok(begun) => relay_locked(rt, alloc, relaying, output, net, places, begun),
            Err(status) => {
                close_unused(net, places);
                no_share(alloc, status)
            }
        },
        Err(stop) => no_share(alloc, write_error(alloc, output, &stop).status),
    }
}

// Closes the listeners, at which no worker has accepted, and the connection.
fn close_unused<N: Net>(net: &mut N, places: Places<N::L, N::D>)
    ensures back { (start : NetSeen) (relaying : Relaying)
        → HasOpened relaying start (net_of N.Net net.old)
        (N.L.taken places.link) (N.L.left places.link) (N.L.faults places.link) (map N.D.coming places.listeners.items)
        → AreNew N.D.written N.D.faults start.written places.listeners.items
        → HasClosedUnused relaying start
        (net_of N.Net net.new) }
    ensures closes { N.open_count net.new
        ≡ N.open_count net.old - (length places.listeners.items + 1) }
{
    close_all(net, places.listeners);
    net.close(places.link);
}

// Returns the outcome if no share was put under a lock.
fn no_share(alloc: Global, status: u8) -> Outcome
    ensures status { result.status ≡ status }
    ensures none { HasNoShare result }
{
    Outcome {
        status,
        history: None,
        links: LinkReports::none(alloc),
    }
}

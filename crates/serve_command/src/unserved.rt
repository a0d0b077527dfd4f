//! The end of runs whose share is not served.

ghost use Rattle.std.specs.Prelude.{◌≡◌, ◌-◌};
ghost use Rattle.command_core.specs.Seen.{NetSeen, net_of, output_of};
ghost use Rattle.serve_command.specs.Outcomes.{outcome_of};
ghost use Rattle.serve_command.specs.Places.{AreUnused, HasClosedUnused, count_of};
ghost use Rattle.serve_command.specs.Runs.{HasNoShare, WritesErrorLine};
ghost use Rattle.serve_command.specs.Terms.{places_of};

use crate::places::Listeners;
use command_core::{Fault, Refusal, write_error};
use outside_net::{Net, Sink};
use share_crew::{LinkReports, Outcome, close_all};
use std::alloc::Global;

/// Returns the outcome if no share was put under a lock.
pub(crate) fn no_share(alloc: Global, status: u8) -> Outcome
    ensures status { result.status ≡ status }
    ensures none { HasNoShare (outcome_of result) }
{
    Outcome {
        status,
        history: None,
        links: LinkReports::none(alloc),
    }
}

/// Closes listeners at which no worker has accepted.
pub(crate) fn close_listeners<N: Net>(net: &mut N, listeners: Listeners<N::D>)
    ensures back { (start : NetSeen) → AreUnused N.D.Listener start listeners.listen.items
        → AreUnused N.D.Listener start listeners.edit.items
        → HasClosedUnused start (net_of N.Net net.old) (net_of N.Net net.new) }
    ensures closes { N.open_count net.new ≡ N.open_count net.old - count_of listeners }
{
    close_all(net, listeners.listen);
    close_all(net, listeners.edit);
}

/// Writes the line of `stop`, because of which no share is opened, and closes the listeners.
pub(crate) fn refuse<W: Sink, N: Net, E: Refusal>(
    alloc: Global,
    output: &mut W,
    net: &mut N,
    listeners: Listeners<N::D>,
    stop: &Fault<E>,
) -> Outcome
    ensures told { WritesErrorLine E.error_line E.error_status stop.now
        (output_of W.Sink output.old)
        (output_of W.Sink output.new)
        result.status }
    ensures none { HasNoShare (outcome_of result) }
    ensures back { (start : NetSeen) → AreUnused N.D.Listener start listeners.listen.items
        → AreUnused N.D.Listener start listeners.edit.items
        → HasClosedUnused start (net_of N.Net net.old) (net_of N.Net net.new) }
    ensures closes { N.open_count net.new ≡ N.open_count net.old - count_of listeners }
{
    let status = write_error(alloc, output, stop).status;
    close_listeners(net, listeners);
    no_share(alloc, status)
}

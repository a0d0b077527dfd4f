//! The listeners of the two addresses.

ghost use Rattle.std.specs.Prelude.{◌≡◌, ◌+◌, map, length, IfOk, IfErr, OnErr};
ghost use Rattle.command_core.specs.Seen.{net_of};
ghost use Rattle.serve_command.specs.Places.{AreUnused, HasOpened, FailsToOpen, all_of, count_of};

use crate::fault::{ServeFault, net_fault};
use crate::terms::Serving;
use command_core::Fault;
use outside_net::Net;
use share_crew::close_all;

/// The listeners of both addresses, before a worker accepts at them.
#[derive(Drop)]
pub(crate) struct Listeners<D> {
    pub(crate) listen: Vec<D>,
    pub(crate) edit: Vec<D>,
}

/// Opens the address of the players and then that of the editors. If the second is not opened, closes the listeners of
/// the first.
pub(crate) fn open_addresses<N: Net>(
    net: &mut N,
    serving: &Serving,
) -> Result<Listeners<N::D>, Fault<ServeFault>>
    ensures opened { IfOk result (λ listeners. HasOpened serving.now
        (net_of N.Net net.old)
        (net_of N.Net net.new)
        (length listeners.listen.items)
        (length listeners.edit.items)
        (map N.D.coming (all_of listeners))) }
    ensures listen { IfOk result (λ listeners.
        AreUnused N.D.Listener (net_of N.Net net.old) listeners.listen.items) }
    ensures edit { IfOk result (λ listeners.
        AreUnused N.D.Listener (net_of N.Net net.old) listeners.edit.items) }
    ensures failed { IfErr result (λ stop. FailsToOpen serving.now
        (net_of N.Net net.old)
        (net_of N.Net net.new)
        stop) }
    ensures opens { IfOk result (λ listeners.
        N.open_count net.new ≡ N.open_count net.old + count_of listeners) }
    ensures closes { OnErr result (N.open_count net.new ≡ N.open_count net.old) }
{
    let listen = match net.listen(serving.listen.as_str(), serving.workers) {
        Ok(listeners) => listeners,
        Err(error) => return Err(net_fault(error)),
    };
    match net.listen(serving.edit.as_str(), serving.editors) {
        Ok(edit) => Ok(Listeners { listen, edit }),
        Err(error) => {
            close_all(net, listen);
            Err(net_fault(error))
        }
    }
}

//! Closes listeners before a worker has accepted at them.

ghost use Rattle.std.specs.Prelude.{◌≡◌, ◌-◌, [], List, Option, length};
ghost use Rattle.outside_net.specs.Places.{Returned};
ghost use Rattle.outside_net.specs.Told.{Grows};
ghost use Rattle.share_crew.specs.Listeners.{AreNew};

use outside_net::Net;

/// Closes `listeners`, listeners at which no worker has accepted.
pub fn close_all<N: Net>(net: &mut N, listeners: Vec<N::D>)
    ensures asked { N.asked net.new ≡ N.asked net.old }
    ensures written { (kept : Option (List Returned))
        → AreNew N.D.written N.D.faults kept listeners.items
        → Grows kept (N.written net.old) [] → Grows kept (N.written net.new) [] }
    ensures count { (kept : Option (List Returned))
        → AreNew N.D.written N.D.faults kept listeners.items
        → N.faults net.new ≡ N.faults net.old }
    ensures closes { N.open_count net.new ≡ N.open_count net.old - length listeners.items }
{
    for listener in listeners {
        net.close_listener(listener);
    }
}

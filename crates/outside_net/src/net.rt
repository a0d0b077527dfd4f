//! Where connections come from.
ghost use Rattle.std.specs.Prelude.{◌≡◌, ℕ, Bool, List, [], ◌∷◌, map, length, All, IfOk, IfSome, OnOk, OnErr, Option};
ghost use Rattle.outside_net.specs.Counts.{CountsFaults, Rose, RisesWith};
ghost use Rattle.outside_net.specs.Told.{BeginsEmpty, Grows, GrowsByTold};
ghost use Rattle.outside_net.specs.Places.{Accepts, OpensListeners, Returned, returned};
ghost use Rattle.outside_net.specs.NetCounts.{CountsNetFaults};
ghost use Rattle.outside_net.specs.Open.{Opens, Closes};
ghost use Rattle.outside_net.specs.declared.net.NetError.TheVariants.{Failed as failed, Memory};

use crate::link::Link;
use outside_disks::{Failed, Faulted};
use std::alloc::AllocError;
use thiserror::Error;

/// A listener for connections. Several listeners may share one address.
pub trait Listener: Faulted {
    type L: Link + Drop + Send;

    // The inputs of the connections that will come, in order, if known.
    ghost coming: { Self → Option (List (List ℕ)) };

    // The connections returned so far, in order, if known.
    ghost written: { Self → Option (List (List ℕ × Bool)) };

    /// Waits for the next connection. Returns `None` if no more will come.
    fn accept(&mut self) -> Result<Option<Self::L>, Failed>
        ensures next { IfOk result (Accepts Self.L.left Self.L.taken (coming self.old)
            (coming self.new)) }
        ensures fresh { IfOk result (λ link. IfSome link (λ l. Self.L.faults l ≡ 0)) }
        ensures unwritten { IfOk result (λ link. IfSome link (λ l.
            BeginsEmpty (written self.old) (Self.L.taken l))) }
        ensures failed { OnErr result (coming self.new ≡ coming self.old) }
        ensures written_stays { written self.new ≡ written self.old }
        ensures count { CountsFaults (Self.faults self.old) (Self.faults self.new) result };

    /// Wakes threads that wait, if possible: one that waits here, and one at every other address for which this
    /// network has opened listeners. No thread is guaranteed to wake.
    fn wake_acceptors(&mut self)
        ensures coming_stays { coming self.new ≡ coming self.old }
        ensures written_stays { written self.new ≡ written self.old }
        ensures count { Self.faults self.new ≡ Self.faults self.old };

    /// Ends a connection that was accepted here. Does not allocate.
    fn done(&mut self, link: Self::L)
        ensures coming_stays { coming self.new ≡ coming self.old }
        ensures written_grows { GrowsByTold (written self.old) (written self.new)
            (returned (Self.L.taken link) (Self.L.faults link)) }
        ensures count { Self.faults self.new ≡ Self.faults self.old };
}

/// Why a network opened no listeners.
#[derive(Debug, Drop, Error)]
pub enum NetError {
    #[error("could not listen at the address")]
    Failed,
    #[error("out of memory")]
    Memory,
}

impl From<Failed> for NetError {
    ghost from_gives = { λ _ e. e ≡ failed };

    fn from(_fault: Failed) -> NetError {
        NetError::Failed
    }
}

impl From<AllocError> for NetError {
    ghost from_gives = { λ _ e. e ≡ Memory };

    fn from(_error: AllocError) -> NetError {
        NetError::Memory
    }
}

/// Opens listeners and makes connections.
pub trait Net: Faulted {
    type L: Link + Drop + Send;

    type D: Listener<L = Self::L> + Drop + Send;

    // The addresses requested so far, each with its number of listeners, or 0 for a connection, if known.
    ghost asked: { Self → Option (List (List ℕ × ℕ)) };

    // The connections returned so far to listeners and to the network, in order, if known.
    ghost written: { Self → Option (List (List ℕ × Bool)) };

    // For each listener to be opened, in order, the inputs of its connections, if known.
    ghost listener_links: { Self → Option (List (List (List ℕ))) };

    // The input of the connection that is made next, if known.
    ghost next_input: { Self → Option (List ℕ) };

    // The number of open listeners and connections: those returned by this network and not passed back.
    ghost open_count: { Self → ℕ };

    /// Opens `number` listeners at one address.
    fn listen(&mut self, place: &str, number: u32) -> Result<Vec<Self::D>, NetError>
        ensures as_many { IfOk result (λ ds. length ds.items ≡ number) }
        ensures fresh { IfOk result (λ ds. All (λ d. Self.D.faults d ≡ 0) ds.items) }
        ensures unwritten { IfOk result (λ ds. All (λ d.
            BeginsEmpty (written self.old) (Self.D.written d)) ds.items) }
        ensures links { IfOk result (λ ds. OpensListeners (listener_links self.old)
            (listener_links self.new)
            (map Self.D.coming ds.items)) }
        ensures failed { OnErr result (listener_links self.new ≡ listener_links self.old) }
        ensures asks { Grows (asked self.old) (asked self.new) ((place.now, number) ∷ []) }
        ensures written_stays { written self.new ≡ written self.old }
        ensures next_stays { next_input self.new ≡ next_input self.old }
        ensures opens { Opens (open_count self.old) (open_count self.new) number result }
        ensures count { CountsNetFaults (Self.faults self.old) (Self.faults self.new) result };

    /// Connects to an address.
    fn connect(&mut self, place: &str) -> Result<Self::L, Failed>
        ensures fresh { IfOk result (λ link. Self.L.faults link ≡ 0) }
        ensures unwritten { IfOk result
            (λ link. BeginsEmpty (written self.old) (Self.L.taken link)) }
        ensures input { IfOk result (λ link. IfSome (next_input self.old)
            (λ input. Self.L.left link ≡ Some input)) }
        ensures asks { Grows (asked self.old) (asked self.new) ((place.now, 0) ∷ []) }
        ensures written_stays { written self.new ≡ written self.old }
        ensures links_stay { listener_links self.new ≡ listener_links self.old }
        ensures opens { Opens (open_count self.old) (open_count self.new) 1 result }
        ensures count { CountsFaults (Self.faults self.old) (Self.faults self.new) result };

    /// Closes a listener that this network opened. Does not allocate.
    fn close_listener(&mut self, listener: Self::D)
        ensures asked_stays { asked self.new ≡ asked self.old }
        ensures written_grows { GrowsByTold (written self.old) (written self.new)
            (Self.D.written listener) }
        ensures links_stay { listener_links self.new ≡ listener_links self.old }
        ensures next_stays { next_input self.new ≡ next_input self.old }
        ensures closes { Closes (open_count self.old) (open_count self.new) }
        ensures count { RisesWith (Self.faults self.old) (Self.faults self.new)
            (Self.D.faults listener) };

    /// Ends a connection that this network made. Does not allocate.
    fn close(&mut self, link: Self::L)
        ensures asked_stays { asked self.new ≡ asked self.old }
        ensures written_grows { GrowsByTold (written self.old) (written self.new)
            (returned (Self.L.taken link) (Self.L.faults link)) }
        ensures links_stay { listener_links self.new ≡ listener_links self.old }
        ensures next_stays { next_input self.new ≡ next_input self.old }
        ensures closes { Closes (open_count self.old) (open_count self.new) }
        ensures count { RisesWith (Self.faults self.old) (Self.faults self.new)
            (Self.L.faults link) };
}

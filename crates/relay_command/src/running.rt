//! Runs a relay's share from its first connection to its last.

ghost use Rattle.std.specs.Prelude.{◌≡◌, ◌≤◌, ◌+◌, ◌-◌, [], ◌∷◌, ◌++◌, ℕ, List, map, length, All, vec_len, vec_capacity};
ghost use Rattle.command_core.specs.Seen.{NetSeen, OutputSeen, net_of, output_of};
ghost use Rattle.command_core.specs.Endings.{IsWritten};
ghost use Rattle.share_lock.specs.Known.{fresh};
ghost use Rattle.share_lock.specs.Passes.{lock_id, known, passes_of, IsReady};
ghost use Rattle.share_crew.specs.Crews.{IsNewWorker};
ghost use Rattle.share_crew.specs.Listeners.{AreNew};
ghost use Rattle.relay_command.specs.Begun.{HasBegun};
ghost use Rattle.relay_command.specs.Places.{HasOpened};
ghost use Rattle.relay_command.specs.Runs.{HasServed};
ghost use Rattle.relay_command.specs.Terms.{MayRelay};

use crate::closing::finish;
use crate::fault::worse_fault;
use crate::opening::Places;
use crate::relayer::Relayer;
use crate::terms::Relaying;
use outside_net::{Net, Sink};
use relay_share::{RelayEnd, RelayReport};
use share_asks::Role;
use share_core::Share;
use share_crew::{
    Gathered, LockedShare, Outcome, WorkerBuffers, add_workers, run_workers, share_of,
};
use share_lock::Pass;
use std::alloc::Global;
use std::sync::Wait;
use std::thread::Threads;
use std::time::Clock;

/// Serves the players of a share that is under its lock, and relays another share to it, until all have ended.
pub(crate) fn relay_locked<W: Sink, N: Net, R: Threads + Wait + Clock + Sync>(
    rt: &R,
    alloc: Global,
    relaying: &Relaying,
    output: &mut W,
    net: &mut N,
    places: Places<N::L, N::D>,
    begun: LockedShare<N::D>,
) -> Outcome
    requires may { MayRelay relaying.now }
    requires ready { IsReady (lock_id begun.lock) begun.first }
    requires no_crew { begun.room.crew.items ≡ [] }
    requires no_links { begun.room.links.items ≡ [] }
    requires listeners { length places.listeners.items ≡ relaying.now.workers + 1 }
    requires crew { relaying.now.workers ≤ vec_capacity begun.room.crew }
    requires links { relaying.now.workers ≤ vec_capacity begun.room.links }
    ensures serves { (start : NetSeen) (before first : OutputSeen) (front : List ℕ)
        → HasBegun relaying.now before first begun
        → HasOpened relaying.now start (net_of N.Net net.old)
        (N.L.taken places.link) (N.L.left places.link) (N.L.faults places.link) (map N.D.coming places.listeners.items)
        → AreNew N.D.written N.D.faults start.written places.listeners.items
        → IsWritten before (output_of W.Sink output.old) front
        → HasServed relaying.now front start
        (net_of N.Net net.new)
        before (output_of W.Sink output.new) result }
    ensures closes { N.open_count net.new
        ≡ N.open_count net.old - (length places.listeners.items + 1) }
{
    let Places { link, listeners } = places;
    let (begun, pass, listener) = assign_workers(rt, alloc, begun, listeners);
    let mut relayer = Relayer {
        terms: relaying,
        pass,
        link,
        listener,
        report: RelayReport {
            rounds: Vec::new(alloc),
            end: RelayEnd::Memory,
        },
    };
    let Gathered {
        lock,
        mut first,
        links,
        verdict,
    } = run_workers(rt, alloc, net, begun, &mut relayer);
    let Relayer {
        terms: _,
        pass,
        link,
        listener,
        report: RelayReport { rounds, end },
    } = relayer;
    lock.join(&mut first, pass);
    net.close_listener(listener);
    net.close(link);
    let share = share_of(rt, &lock, &mut first);
    finish(
        alloc,
        output,
        share,
        links,
        rounds.as_slice(),
        worse_fault(verdict, end),
    )
}

// Makes a worker for each listener except the last, and then splits off the relay's lock handle. Returns it with that
// listener.
fn assign_workers<D: Drop, R: Wait>(
    rt: &R,
    alloc: Global,
    begun: LockedShare<D>,
    listeners: Vec<D>,
) -> (LockedShare<D>, Pass<Share>, D)
    requires ready { IsReady (lock_id begun.lock) begun.first }
    requires empty { begun.room.crew.items ≡ [] }
    requires some { 1 ≤ length listeners.items }
    requires room { length listeners.items ≤ vec_capacity begun.room.crew + 1 }
    ensures lock { lock_id result.0.lock ≡ lock_id begun.lock }
    ensures ready { IsReady (lock_id result.0.lock) result.0.first }
    ensures pass { known result.0.first ≡ known begun.first }
    ensures hired { All (IsNewWorker (lock_id result.0.lock) (known result.0.first))
        result.0.room.crew.items }
    ensures roles { map (λ w. w.role) result.0.room.crew.items
        ≡ map (λ w. Role.Listen) result.0.room.crew.items }
    ensures listeners { listeners.items
        ≡ map (λ w. w.listener) result.0.room.crew.items ++ result.2 ∷ [] }
    ensures links { result.0.room.links ≡ begun.room.links }
    ensures relay_ready { IsReady (lock_id result.0.lock) result.1 }
    ensures relay_pass { known result.1
        ≡ fresh (known result.1).number (known begun.first).settings (known begun.first).seen }
    ensures relay_some { 1 ≤ (known result.1).number }
    ensures relay_few { (known result.1).number + 1 ≤ passes_of begun.lock }
{
    let LockedShare {
        lock,
        mut first,
        room: WorkerBuffers { mut crew, links },
    } = begun;
    let mut listeners = listeners;
    let last = listeners.pop().unwrap();
    add_workers(
        rt,
        alloc,
        &lock,
        &mut first,
        listeners,
        Role::Listen,
        &mut crew,
    );
    let pass = lock.split(rt, &mut first).unwrap();
    let begun = LockedShare {
        lock,
        first,
        room: WorkerBuffers { crew, links },
    };
    (begun, pass, last)
}

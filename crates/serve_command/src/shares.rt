//! Serves a share from its first line to its last, at listeners that are open.

ghost use Rattle.std.specs.Prelude.{◌≡◌, ◌≤◌, ◌<◌, ◌+◌, ◌-◌, ◌++◌, ◌∷◌, [], ℕ, List, length, vec_len, vec_capacity, false, All};
ghost use Rattle.item_model.specs.declared.changes.Entry.{Entry};
ghost use Rattle.command_core.specs.Seen.{NetSeen, OutputSeen, net_of, output_of};
ghost use Rattle.command_core.specs.Endings.{IsWritten};
ghost use Rattle.share_lock.specs.Passes.{lock_id, known, passes_of, IsReady};
ghost use Rattle.share_replies.specs.Laws.{maker};
ghost use Rattle.share_crew.specs.Crews.{IsStaff};
ghost use Rattle.serve_command.specs.Begun.{IsBegunWith};
ghost use Rattle.serve_command.specs.Files.{KeepsHistory};
ghost use Rattle.serve_command.specs.Outcomes.{outcome_of};
ghost use Rattle.serve_command.specs.Places.{HasAddresses, MayServeWith, all_of, count_of, roles_at};
ghost use Rattle.serve_command.specs.Runs.{HasServed, ShareEnds};
ghost use Rattle.serve_command.specs.Terms.{settings_of};

use crate::closing::finish;
use crate::opening::begin;
use crate::places::Listeners;
use crate::terms::Serving;
use crate::unserved::{close_listeners, no_share};
use edit_keeping::Keeps;
use outside_net::{Net, Sink};
use share_asks::Role;
use share_core::Share;
use share_crew::{
    Gathered, LockedShare, Outcome, WorkerBuffers, add_workers, gather, run_with_editor, share_of,
};
use share_lock::Bell;
use share_workers::Worker;
use std::alloc::Global;
use std::sync::Wait;
use std::thread::Threads;
use std::time::Clock;

/// Serves a share whose edits `keeper` keeps. Returns the keeper, too.
pub(crate) fn serve_share<W: Sink, N: Net, K: Keeps, R: Threads + Wait + Clock + Sync>(
    rt: &R,
    alloc: Global,
    serving: &Serving,
    output: &mut W,
    net: &mut N,
    listeners: Listeners<N::D>,
    share: Share,
    keeper: K,
) -> (Outcome, K)
    requires may { MayServeWith serving.now listeners }
    requires opening { All (λ e. maker e ≡ 0) share.history }
    requires settings { share.settings ≡ settings_of serving.now }
    requires going { K.is_lost keeper ≡ false }
    ensures ends { (start : NetSeen)
        → HasAddresses N.D.Listener serving.now start (net_of N.Net net.old) listeners
        → ShareEnds serving.now share.history
        (KeepsHistory K.Keeps serving.now.editors keeper result.1 share.history)
        start (net_of N.Net net.new)
        (output_of W.Sink output.old)
        (output_of W.Sink output.new) (outcome_of result.0) }
    ensures closes { N.open_count net.new ≡ N.open_count net.old - count_of listeners }
{
    match begin(alloc, serving, output, share) {
        Ok(begun) => serve_locked(rt, alloc, output, net, listeners, begun, keeper),
        Err(status) => {
            close_listeners(net, listeners);
            (no_share(alloc, status), keeper)
        }
    }
}

// Serves a share that is under its lock, to its end. The last editor's worker works in this thread.
fn serve_locked<W: Sink, N: Net, K: Keeps, R: Threads + Wait + Clock + Sync>(
    rt: &R,
    alloc: Global,
    output: &mut W,
    net: &mut N,
    listeners: Listeners<N::D>,
    begun: LockedShare<N::D>,
    keeper: K,
) -> (Outcome, K)
    requires ready { IsReady (lock_id begun.lock) begun.first }
    requires no_crew { begun.room.crew.items ≡ [] }
    requires no_links { begun.room.links.items ≡ [] }
    requires crew { count_of listeners ≤ vec_capacity begun.room.crew }
    requires links { count_of listeners ≤ vec_capacity begun.room.links }
    requires some { 1 ≤ length listeners.edit.items }
    requires few { count_of listeners ≤ 72 }
    requires going { K.is_lost keeper ≡ false }
    ensures serves { (serving : Serving) (opened : List Entry)
        (start : NetSeen) (before : OutputSeen) (front : List ℕ)
        → IsBegunWith serving opened begun → All (λ e. maker e ≡ 0) opened
        → HasAddresses N.D.Listener serving start (net_of N.Net net.old) listeners
        → IsWritten before (output_of W.Sink output.old) front
        → HasServed serving opened
        (KeepsHistory K.Keeps serving.editors keeper result.1 opened) front
        start (net_of N.Net net.new)
        before (output_of W.Sink output.new) (outcome_of result.0) }
    ensures closes { N.open_count net.new ≡ N.open_count net.old - count_of listeners }
{
    let (mut begun, mut last) = assign_workers(rt, alloc, begun, listeners);
    let mut keeper = keeper;
    run_with_editor(
        rt,
        alloc,
        &begun.lock,
        &Bell::new(),
        &mut begun.room.crew,
        &mut last,
        &mut keeper,
    );
    begun.room.crew.push_reserved(last);
    let Gathered {
        lock,
        mut first,
        links,
        verdict,
    } = gather(net, begun);
    let share = share_of(rt, &lock, &mut first);
    (finish(alloc, output, share, links, verdict), keeper)
}

// Makes a worker for each listener. Returns the last of them by itself.
fn assign_workers<D: Drop, R: Wait>(
    rt: &R,
    alloc: Global,
    begun: LockedShare<D>,
    listeners: Listeners<D>,
) -> (LockedShare<D>, Worker<D>)
    requires ready { IsReady (lock_id begun.lock) begun.first }
    requires empty { begun.room.crew.items ≡ [] }
    requires room { count_of listeners ≤ vec_capacity begun.room.crew }
    requires some { 1 ≤ length listeners.edit.items }
    ensures lock { lock_id result.0.lock ≡ lock_id begun.lock }
    ensures ready { IsReady (lock_id result.0.lock) result.0.first }
    ensures pass { known result.0.first ≡ known begun.first }
    ensures staff { IsStaff (lock_id result.0.lock) (known result.0.first)
        (roles_at listeners)
        (all_of listeners)
        (result.0.room.crew.items ++ result.1 ∷ []) }
    ensures len { length result.0.room.crew.items + 1 ≡ count_of listeners }
    ensures room { vec_len result.0.room.crew < vec_capacity result.0.room.crew }
    ensures links { result.0.room.links ≡ begun.room.links }
{
    let LockedShare {
        lock,
        mut first,
        room: WorkerBuffers { mut crew, links },
    } = begun;
    let Listeners { listen, edit } = listeners;
    add_workers(
        rt,
        alloc,
        &lock,
        &mut first,
        listen,
        Role::Listen,
        &mut crew,
    );
    add_workers(rt, alloc, &lock, &mut first, edit, Role::Edit, &mut crew);
    let last = crew.pop().unwrap();
    let begun = LockedShare {
        lock,
        first,
        room: WorkerBuffers { crew, links },
    };
    (begun, last)
}

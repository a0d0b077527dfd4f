//! Workers at work, concurrently with a partner.
ghost use Rattle.std.specs.Prelude.{◌≡◌, ◌<◌, ◌≤◌, ◌-◌, ◌^◌, false, [], List, Option, map, length, All, vec_len, vec_capacity};
ghost use Rattle.std.specs.List.{AllZip};
ghost use Rattle.std.specs.Thread.{IsSync};
ghost use Rattle.outside_net.specs.Places.{Returned};
ghost use Rattle.item_model.specs.declared.changes.Entry.{Entry};
ghost use Rattle.share_lock.specs.Known.{fresh};
ghost use Rattle.share_lock.specs.Passes.{lock_id, passes_of, known, IsReady};
ghost use Rattle.share_replies.specs.Settings.{Settings};
ghost use Rattle.share_server.specs.Kept.{Keeping};
ghost use Rattle.share_workers.specs.Ends.{is_worker_loss};
ghost use Rattle.share_crew.specs.Crews.{IsNewWorker, HasEnded};
ghost use Rattle.share_crew.specs.Listeners.{AreNew};
ghost use Rattle.share_crew.specs.Lines.{links_in, requests_in};
ghost use Rattle.share_crew.specs.Gathered.{HasGathered};

use crate::gathering::{Gathered, gather};
use crate::opening::LockedShare;
use crate::partner::Partner;
use edit_keeping::Keeps;
use outside_net::{Listener, Net};
use share_core::Share;
use share_lock::{Bell, ShareLock};
use share_workers::{Worker, WorkerEnd, keep_worker, serve_all};
use std::alloc::Global;
use std::sync::Wait;
use std::thread::{Threads, join_mut};
use std::time::Clock;

/// Lets each worker serve its connections in its own thread, and `partner` work in this one. Returns when all have
/// ended.
pub fn run_with_partner<D: Listener + Drop + Send, P: Partner, R: Threads + Wait + Clock + Sync>(
    rt: &R,
    alloc: Global,
    lock: &ShareLock<Share>,
    bell: &Bell,
    crew: &mut Vec<Worker<D>>,
    partner: &mut P,
)
    requires ready { All (λ w. IsReady (lock_id lock.now) w.pass) crew.old.items }
    requires running { All (λ w. w.end ≡ WorkerEnd.Running) crew.old.items }
    requires unreported { All (λ w. w.reports.items ≡ []) crew.old.items }
    requires partner { P.ready (lock_id lock.now) partner.old }
    ensures ready { All (λ w. IsReady (lock_id lock.now) w.pass) crew.new.items }
    ensures roles { AllZip (λ old new. new.role ≡ old.role) crew.old.items crew.new.items }
    ensures served { AllZip (HasEnded D.coming D.written D.faults) crew.old.items crew.new.items }
    ensures whole { All (λ w. is_worker_loss w.end ≡ false) crew.new.items }
    ensures room { vec_capacity crew.new ≡ vec_capacity crew.old }
    ensures partner { P.worked (lock_id lock.now) partner.old partner.new }
{
    let mut all = ||
        requires { IsSync R.row × All (λ w. IsReady (lock_id lock.now) w.pass) crew.now.items
            × All (λ w. w.end ≡ WorkerEnd.Running) crew.now.items
            × All (λ w. w.reports.items ≡ []) crew.now.items }
        ensures { All (λ w. IsReady (lock_id lock.entry.now) w.pass) crew.exit.now.items
            × AllZip (λ old new. new.role ≡ old.role) crew.entry.now.items crew.exit.now.items
            × AllZip (HasEnded D.coming D.written D.faults) crew.entry.now.items crew.exit.now.items
            × All (λ w. is_worker_loss w.end ≡ false) crew.exit.now.items
            × (vec_capacity crew.exit.now ≡ vec_capacity crew.entry.now) }
    { serve_all(rt, alloc, lock, bell, crew) };
    join_mut(rt, &mut all, &mut || partner.work(rt, alloc, lock, bell));
}

/// Lets each worker of `crew` serve its connections in its own thread, and in this one `worker`, whose edits `keeper`
/// keeps. Returns when all have ended.
pub fn run_with_editor<D: Listener + Drop + Send, F: Keeps, R: Threads + Wait + Clock + Sync>(
    rt: &R,
    alloc: Global,
    lock: &ShareLock<Share>,
    bell: &Bell,
    crew: &mut Vec<Worker<D>>,
    worker: &mut Worker<D>,
    keeper: &mut F,
)
    requires ready { All (λ w. IsReady (lock_id lock.now) w.pass) crew.old.items }
    requires running { All (λ w. w.end ≡ WorkerEnd.Running) crew.old.items }
    requires unreported { All (λ w. w.reports.items ≡ []) crew.old.items }
    requires keeper_ready { IsReady (lock_id lock.now) worker.old.pass }
    requires keeper_running { worker.old.end ≡ WorkerEnd.Running }
    requires keeper_unreported { worker.old.reports.items ≡ [] }
    requires going { F.is_lost keeper.old ≡ false }
    ensures ready { All (λ w. IsReady (lock_id lock.now) w.pass) crew.new.items }
    ensures roles { AllZip (λ old new. new.role ≡ old.role) crew.old.items crew.new.items }
    ensures served { AllZip (HasEnded D.coming D.written D.faults) crew.old.items crew.new.items }
    ensures whole { All (λ w. is_worker_loss w.end ≡ false) crew.new.items }
    ensures room { vec_capacity crew.new ≡ vec_capacity crew.old }
    ensures keeper_ready { IsReady (lock_id lock.now) worker.new.pass }
    ensures keeper_role { worker.new.role ≡ worker.old.role }
    ensures keeper_served { HasEnded D.coming D.written D.faults worker.old worker.new }
    ensures keeping { Keeping (F.keeps keeper.old) (F.keeps keeper.new) (F.is_lost keeper.new)
        (F.faults keeper.old) (F.faults keeper.new) (known worker.old.pass) (known worker.new.pass)
        (is_worker_loss worker.new.end) }
{
    let mut all = ||
        requires { IsSync R.row × All (λ w. IsReady (lock_id lock.now) w.pass) crew.now.items
            × All (λ w. w.end ≡ WorkerEnd.Running) crew.now.items
            × All (λ w. w.reports.items ≡ []) crew.now.items }
        ensures { All (λ w. IsReady (lock_id lock.entry.now) w.pass) crew.exit.now.items
            × AllZip (λ old new. new.role ≡ old.role) crew.entry.now.items crew.exit.now.items
            × AllZip (HasEnded D.coming D.written D.faults) crew.entry.now.items crew.exit.now.items
            × All (λ w. is_worker_loss w.end ≡ false) crew.exit.now.items
            × (vec_capacity crew.exit.now ≡ vec_capacity crew.entry.now) }
    { serve_all(rt, alloc, lock, bell, crew) };
    let mut kept = ||
        requires { IsReady (lock_id lock.now) worker.now.pass × (worker.now.end ≡ WorkerEnd.Running)
            × (worker.now.reports.items ≡ []) × (F.is_lost keeper.now ≡ false) }
        ensures { IsReady (lock_id lock.entry.now) worker.exit.now.pass
            × (worker.exit.now.role ≡ worker.entry.now.role)
            × HasEnded D.coming D.written D.faults worker.entry.now worker.exit.now
            × Keeping (F.keeps keeper.entry.now) (F.keeps keeper.exit.now)
            (F.is_lost keeper.exit.now) (F.faults keeper.entry.now) (F.faults keeper.exit.now)
            (known worker.entry.now.pass) (known worker.exit.now.pass)
            (is_worker_loss worker.exit.now.end) }
    { keep_worker(rt, alloc, lock, bell, worker, keeper) };
    join_mut(rt, &mut all, &mut kept);
}

/// Lets all workers and `partner` work to their ends. Returns what the workers leave, gathered.
pub fn run_workers<N: Net, P: Partner, R: Threads + Wait + Clock + Sync>(
    rt: &R,
    alloc: Global,
    net: &mut N,
    mut begun: LockedShare<N::D>,
    partner: &mut P,
) -> Gathered
    requires ready { IsReady (lock_id begun.lock) begun.first }
    requires hired { All (IsNewWorker (lock_id begun.lock) (known begun.first)) begun.room.crew.items }
    requires empty { begun.room.links.items ≡ [] }
    requires room { vec_len begun.room.crew ≤ vec_capacity begun.room.links }
    requires partner { P.ready (lock_id begun.lock) partner.old }
    ensures lock { lock_id result.lock ≡ lock_id begun.lock }
    ensures ready { IsReady (lock_id result.lock) result.first }
    ensures gathered { (settings : Settings) (opening : List Entry) (kept : Option (List Returned))
        → known begun.first ≡ fresh 0 settings opening → AreNew N.D.written N.D.faults kept (map (λ w. w.listener) begun.room.crew.items)
        → HasGathered settings opening (passes_of begun.lock) (map (λ w. w.role) begun.room.crew.items) (map (λ w. N.D.coming w.listener) begun.room.crew.items)
        kept (N.written net.old) (N.written net.new) (N.faults net.old) (N.faults net.new) (known result.first) result.links result.verdict }
    ensures partner { P.worked (lock_id begun.lock) partner.old partner.new }
    ensures asked { N.asked net.new ≡ N.asked net.old }
    ensures closes { N.open_count net.new ≡ N.open_count net.old - length begun.room.crew.items }
    ensures links { length begun.room.crew.items ≤ 72 → links_in result.links < 2 ^ 64 }
    ensures requests { length begun.room.crew.items ≤ 72 → requests_in result.links < 2 ^ 64 }
{
    run_with_partner(
        rt,
        alloc,
        &begun.lock,
        &Bell::new(),
        &mut begun.room.crew,
        partner,
    );
    gather(net, begun)
}

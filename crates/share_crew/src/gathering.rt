//! Gathers workers that have ended.

ghost use Rattle.std.specs.Prelude.{◌≡◌, ◌<◌, ◌≤◌, ◌+◌, ◌-◌, ◌^◌, ◌++◌, [], List, Option, map, length, All, vec_len, vec_capacity};
ghost use Rattle.std.specs.List.{AllByRecursion, AllZip};
ghost use Rattle.outside_net.specs.Places.{Returned};
ghost use Rattle.item_model.specs.declared.changes.Entry.{Entry};
ghost use Rattle.share_lock.specs.Known.{fresh};
ghost use Rattle.share_lock.specs.Passes.{lock_id, passes_of, known, IsReady};
ghost use Rattle.share_replies.specs.Settings.{Settings};
ghost use Rattle.share_replies.specs.Laws.{maker};
ghost use Rattle.share_workers.specs.declared.worker.Worker.{Worker as Member};
ghost use Rattle.share_server.specs.Passes.{Pass as Seen};
ghost use Rattle.share_crew.specs.Crews.{IsNewWorker, HasEnded, IsOf, HasJoined, HasClosedListeners};
ghost use Rattle.share_crew.specs.Listeners.{AreNew};
ghost use Rattle.share_crew.specs.Lines.{links_in, requests_in};
ghost use Rattle.share_crew.specs.WorkerRuns.{WorkerRun, IsHistoryOf, IsNumbered, passes_in};
ghost use Rattle.share_crew.specs.Gathered.{HasGathered};

use crate::opening::{LockedShare, WorkerBuffers};
use crate::outcome::LinkReports;
use crate::verdict::{Verdict, verdict_of};
use outside_net::Net;
use share_core::Share;
use share_lock::{Pass, ShareLock};
use share_server::LinkReport;
use share_workers::Worker;
use std::sync::Wait;

/// What workers that have ended leave: the share under its lock, the lock handle that theirs were joined to, the
/// reports of their connections, and how they ended.
pub struct Gathered {
    pub lock: ShareLock<Share>,
    pub first: Pass<Share>,
    pub links: LinkReports,
    pub verdict: Verdict,
}

/// Gathers workers that have ended, in their order: joins their lock handles, closes their listeners and keeps the
/// reports of their connections.
pub fn gather<N: Net>(net: &mut N, begun: LockedShare<N::D>) -> Gathered
    requires ready { IsReady (lock_id begun.lock) begun.first }
    requires crew { All (λ w. IsReady (lock_id begun.lock) w.pass) begun.room.crew.items }
    requires empty { begun.room.links.items ≡ [] }
    requires room { vec_len begun.room.crew ≤ vec_capacity begun.room.links }
    ensures lock { lock_id result.lock ≡ lock_id begun.lock }
    ensures ready { IsReady (lock_id result.lock) result.first }
    ensures gathered { (settings : Settings) (opening : List Entry) (kept : Option (List Returned))
        (before : List (Member N.D))
        → known begun.first ≡ fresh 0 settings opening → All (IsNewWorker (lock_id begun.lock) (known begun.first)) before
        → AreNew N.D.written N.D.faults kept (map (λ w. w.listener) before)
        → AllZip (HasEnded N.D.coming N.D.written N.D.faults) before begun.room.crew.items
        → AllZip (λ old new. new.role ≡ old.role) before begun.room.crew.items
        → (g : HasGathered settings opening (passes_of begun.lock) (map (λ w. w.role) before) (map (λ w. N.D.coming w.listener) before)
        kept (N.written net.old) (N.written net.new) (N.faults net.old) (N.faults net.new) (known result.first) result.links result.verdict)
        × AllZip (IsOf N.D.written N.D.faults) g.crew begun.room.crew.items }
    ensures asked { N.asked net.new ≡ N.asked net.old }
    ensures closes { N.open_count net.new ≡ N.open_count net.old - length begun.room.crew.items }
    ensures links { (before : List (Member N.D))
        → AllZip (HasEnded N.D.coming N.D.written N.D.faults) before begun.room.crew.items
        → length before ≤ 72 → links_in result.links < 2 ^ 64 }
    ensures requests { (before : List (Member N.D))
        → AllZip (HasEnded N.D.coming N.D.written N.D.faults) before begun.room.crew.items
        → length before ≤ 72 → requests_in result.links < 2 ^ 64 }
{
    let LockedShare {
        lock,
        mut first,
        room: WorkerBuffers { crew, mut links },
    } = begun;
    let verdict = verdict_of(crew.as_slice());
    join_each(&lock, net, &mut first, crew, &mut links);
    Gathered {
        lock,
        first,
        links: LinkReports::of(links),
        verdict,
    }
}

// Joins the lock handles of all workers, closes their listeners and keeps their reports, in capacity reserved before.
fn join_each<N: Net>(
    lock: &ShareLock<Share>,
    net: &mut N,
    first: &mut Pass<Share>,
    crew: Vec<Worker<N::D>>,
    links: &mut Vec<Vec<LinkReport>>,
)
    requires first { IsReady (lock_id lock.now) first.old }
    requires crew { All (λ w. IsReady (lock_id lock.now) w.pass) crew.items }
    requires room { vec_len links.old + vec_len crew ≤ vec_capacity links.old }
    ensures ready { IsReady (lock_id lock.now) first.new }
    ensures joined { (settings : Settings) (opening : List Entry)
        (worker_runs : List (WorkerRun settings opening))
        → AllZip (IsOf N.D.written N.D.faults) worker_runs crew.items → HasJoined (known first.old) (known first.new) (passes_in worker_runs) }
    ensures shut { (settings : Settings) (opening : List Entry)
        (worker_runs : List (WorkerRun settings opening))
        → AllZip (IsOf N.D.written N.D.faults) worker_runs crew.items
        → HasClosedListeners (N.written net.old) (N.written net.new) (N.faults net.old) (N.faults net.new) worker_runs }
    ensures asked { N.asked net.new ≡ N.asked net.old }
    ensures closes { N.open_count net.new ≡ N.open_count net.old - length crew.items }
    ensures links { map (λ l. l.items) links.new.items
        ≡ map (λ l. l.items) links.old.items ++ map (λ w. w.reports.items) crew.items }
{
    for worker in crew {
        let Worker {
            pass,
            listener,
            role: _,
            reports,
            end: _,
        } = worker;
        lock.join(first, pass);
        net.close_listener(listener);
        links.push_reserved(reports);
    }
}

/// Takes the share out of its lock, in a last turn of the handle to which all others were joined.
pub fn share_of<R: Wait>(rt: &R, lock: &ShareLock<Share>, first: &mut Pass<Share>) -> Share
    requires ready { IsReady (lock_id lock.now) first.old }
    ensures { (settings : Settings) (opening : List Entry) (worker_runs : List (WorkerRun settings opening))
        (others : List Seen)
        → All (λ e. maker e ≡ 0) opening → HasJoined (fresh 0 settings opening) (known first.old) (passes_in worker_runs ++ others)
        → AllByRecursion (IsNumbered (passes_of lock.now)) (passes_in worker_runs ++ others)
        → passes_of lock.now ≡ length (passes_in worker_runs ++ others) + 1
        → IsHistoryOf (length (passes_in worker_runs ++ others)) result.history worker_runs others }
{
    let turn = lock.take(rt, first);
    lock.end(turn)
}

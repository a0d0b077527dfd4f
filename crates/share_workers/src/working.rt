//! The work of one worker.
ghost use Rattle.std.specs.Prelude.{◌≡◌, ◌+◌, ◌<◌, ◌++◌, [], ◌∷◌, List, ℕ, false, Some, Option, MatchOption, IsNone, length, vec_len, vec_capacity};
ghost use Rattle.outside_net.specs.Places.{Accepts};
ghost use Rattle.outside_net.specs.Told.{BeginsEmpty};
ghost use Rattle.share_history.specs.Sessions.{is_stopped};
ghost use Rattle.share_lock.specs.Passes.{lock_id, known, IsReady};
ghost use Rattle.share_server.specs.declared.report.LinkReport.{LinkReport as Report};
ghost use Rattle.share_server.specs.Kept.{KeepsEdits};
ghost use Rattle.share_server.specs.Losses.{is_loss};
ghost use Rattle.share_server.specs.Steps.{serving_of};
ghost use Rattle.share_workers.specs.Works.{Syncs};
ghost use Rattle.share_workers.specs.Ends.{CountsAccepts, is_worker_loss};
ghost use Rattle.share_workers.specs.Steps.{ends_by_loss};
ghost use Rattle.share_workers.specs.Workers.{WorkerSeen, MayBegin, KeepsRole, WorksUntil, WorksToEnd, IsUnderway, ContinuesOrEnds, ServesOne};

use crate::worker::{Worker, WorkerEnd};
use edit_keeping::{Keeps, Unkept};
use outside_net::{Failed, Listener};
use share_core::Share;
use share_lock::{Bell, Pass, ShareLock};
use share_server::{LinkEnd, keep_link};
use std::alloc::Global;
use std::sync::Wait;
use std::time::Clock;

// The maximum number of connections that a worker serves.
const MOST_LINKS: usize = 65_536;

// The maximum number of requests that a worker serves, on all of its connections.
const MOST_REQUESTS: u32 = 262_144;

// What a worker serves its connections with.
#[derive(Drop)]
struct WorkerContext<'a, R> {
    rt: &'a R,
    alloc: Global,
    lock: &'a ShareLock<Share>,
    bell: &'a Bell,
}

/// Serves connections until the share is stopped, no more will come, the worker has served its maximum, its listener
/// fails, or an allocation fails. After each connection it takes one turn that adds nothing. No edit is kept.
pub fn serve_worker<D: Listener, R: Wait + Clock>(
    rt: &R,
    alloc: Global,
    lock: &ShareLock<Share>,
    bell: &Bell,
    worker: &mut Worker<D>,
)
    requires begins { MayBegin (lock_id lock.now) worker.old }
    ensures ready { IsReady (lock_id lock.now) worker.new.pass }
    ensures role { KeepsRole worker.old worker.new }
    ensures served { WorksToEnd D.Listener worker.old worker.new }
    ensures whole { is_worker_loss worker.new.end ≡ false }
{
    keep_worker(rt, alloc, lock, bell, worker, &mut Unkept);
}

/// Serves connections as `serve_worker` does, and lets the keeper keep each batch of edits that is added, in order, before
/// its request is answered. A batch that the keeper could not keep stays in the history: no reply acknowledges it, the
/// share is stopped after it, and the worker ends by `FileFault`.
pub fn keep_worker<D: Listener, F: Keeps, R: Wait + Clock>(
    rt: &R,
    alloc: Global,
    lock: &ShareLock<Share>,
    bell: &Bell,
    worker: &mut Worker<D>,
    keeper: &mut F,
)
    requires begins { MayBegin (lock_id lock.now) worker.old }
    requires going { F.is_lost keeper.old ≡ false }
    ensures ready { IsReady (lock_id lock.now) worker.new.pass }
    ensures role { KeepsRole worker.old worker.new }
    ensures served { WorksToEnd D.Listener worker.old worker.new }
    ensures keeping { KeepsEdits F.Keeps keeper.old keeper.new
        (known worker.old.pass) (known worker.new.pass) (is_worker_loss worker.new.end) }
{
    let context = WorkerContext {
        rt,
        alloc,
        lock,
        bell,
    };
    let end = work(&context, worker, keeper);
    worker.end = end;
}

// Serves connections to the worker's end.
fn work<D: Listener, F: Keeps, R: Wait + Clock>(
    context: &WorkerContext<'_, R>,
    worker: &mut Worker<D>,
    keeper: &mut F,
) -> WorkerEnd
    requires ready { IsReady (lock_id context.now.lock.now) worker.old.pass }
    requires unreported { worker.old.reports.items ≡ [] }
    requires going { F.is_lost keeper.old ≡ false }
    ensures ready { IsReady (lock_id context.now.lock.now) worker.new.pass }
    ensures role { KeepsRole worker.old worker.new }
    ensures served { WorksUntil D.Listener worker.old worker.new result }
    ensures keeping { KeepsEdits F.Keeps keeper.old keeper.new
        (known worker.old.pass) (known worker.new.pass) (is_worker_loss result) }
{
    let mut budget = MOST_REQUESTS;
    loop {
        if let Some(end) = serve_next(context, worker, keeper, &mut budget) {
            return end;
        }
    }
}

// Waits for a connection and serves it. Returns the worker's end, if it has come. The space for the report is allocated
// before the connection is accepted.
fn serve_next<D: Listener, F: Keeps, R: Wait + Clock>(
    context: &WorkerContext<'_, R>,
    worker: &mut Worker<D>,
    keeper: &mut F,
    budget: &mut u32,
) -> Option<WorkerEnd>
    requires ready { IsReady (lock_id context.now.lock.now) worker.old.pass }
    requires going { F.is_lost keeper.old ≡ false }
    ensures ready { IsReady (lock_id context.now.lock.now) worker.new.pass }
    ensures role { KeepsRole worker.old worker.new }
    ensures grows { IsNone result → vec_len worker.new.reports ≡ vec_len worker.old.reports + 1 }
    ensures served { (start : WorkerSeen)
        → IsUnderway D.Listener start (D.coming worker.old.listener) worker.old budget.old
        → ContinuesOrEnds D.Listener start worker.old worker.new budget.new result }
    ensures count { MatchOption result (D.faults worker.new.listener ≡ D.faults worker.old.listener)
        (CountsAccepts (D.faults worker.old.listener) (D.faults worker.new.listener)) }
    ensures keeping { KeepsEdits F.Keeps keeper.old keeper.new
        (known worker.old.pass) (known worker.new.pass) (ends_by_loss result) }
{
    if worker.reports.reserve(1).is_err() {
        return Some(WorkerEnd::Memory);
    }
    match worker.listener.accept() {
        Err(Failed) => Some(WorkerEnd::AcceptFault),
        Ok(None) => Some(WorkerEnd::NoMoreLinks),
        Ok(Some(link)) => serve_accepted(context, worker, keeper, link, budget),
    }
}

// Serves a connection that was accepted. A worker that sees a stop lets others stop waiting.
fn serve_accepted<D: Listener, F: Keeps, R: Wait + Clock>(
    context: &WorkerContext<'_, R>,
    worker: &mut Worker<D>,
    keeper: &mut F,
    link: D::L,
    budget: &mut u32,
) -> Option<WorkerEnd>
    requires ready { IsReady (lock_id context.now.lock.now) worker.old.pass }
    requires room { vec_len worker.old.reports < vec_capacity worker.old.reports }
    requires fresh { D.L.faults link ≡ 0 }
    requires going { F.is_lost keeper.old ≡ false }
    ensures ready { IsReady (lock_id context.now.lock.now) worker.new.pass }
    ensures role { KeepsRole worker.old worker.new }
    ensures grows { vec_len worker.new.reports ≡ vec_len worker.old.reports + 1 }
    ensures served { (start : WorkerSeen) (before : Option (List (List ℕ)))
        → IsUnderway D.Listener start before worker.old budget.old
        → Accepts D.L.left D.L.taken before (D.coming worker.old.listener) (Some link)
        → BeginsEmpty (D.written worker.old.listener) (D.L.taken link)
        → ContinuesOrEnds D.Listener start worker.old worker.new budget.new result }
    ensures count { MatchOption result (D.faults worker.new.listener ≡ D.faults worker.old.listener)
        (CountsAccepts (D.faults worker.old.listener) (D.faults worker.new.listener)) }
    ensures keeping { KeepsEdits F.Keeps keeper.old keeper.new
        (known worker.old.pass) (known worker.new.pass) (ends_by_loss result) }
{
    let after = serve_one(context, worker, keeper, link, budget);
    if after.lost {
        worker.listener.wake_acceptors();
        return Some(WorkerEnd::FileFault);
    }
    if after.stopped {
        worker.listener.wake_acceptors();
        return Some(WorkerEnd::Stopped);
    }
    if *budget == 0 || worker.reports.len() == MOST_LINKS {
        return Some(WorkerEnd::Spent);
    }
    None
}

// What a worker knows after a connection that it returned to its listener.
#[derive(Clone, Copy)]
struct AfterLink {
    // The connection's edit could not be kept.
    lost: bool,
    // The share was stopped by then.
    stopped: bool,
}

// Serves a connection, returns it to the listener, and takes a turn.
fn serve_one<D: Listener, F: Keeps, R: Wait + Clock>(
    context: &WorkerContext<'_, R>,
    worker: &mut Worker<D>,
    keeper: &mut F,
    mut link: D::L,
    budget: &mut u32,
) -> AfterLink
    requires fresh { D.L.faults link ≡ 0 }
    requires ready { IsReady (lock_id context.now.lock.now) worker.old.pass }
    requires room { vec_len worker.old.reports < vec_capacity worker.old.reports }
    requires going { F.is_lost keeper.old ≡ false }
    ensures ready { IsReady (lock_id context.now.lock.now) worker.new.pass }
    ensures role { KeepsRole worker.old worker.new }
    ensures coming { D.coming worker.new.listener ≡ D.coming worker.old.listener }
    ensures count { D.faults worker.new.listener ≡ D.faults worker.old.listener }
    ensures stopped { result.stopped ≡ is_stopped (known worker.new.pass).seen }
    ensures keeping { KeepsEdits F.Keeps keeper.old keeper.new
        (known worker.old.pass) (known worker.new.pass) result.lost }
    ensures done { (report : Report)
        × (worker.new.reports.items ≡ worker.old.reports.items ++ report ∷ [])
        × (budget.new + length report.served ≡ budget.old)
        × (is_loss report.end ≡ result.lost)
        × ServesOne D.Listener worker.old worker.new (serving_of D.L.Link (known worker.old.pass) link)
        budget.old report }
{
    let report = keep_link(
        context.rt,
        context.alloc,
        context.lock,
        context.bell,
        &mut worker.pass,
        &mut link,
        keeper,
        worker.role,
        *budget,
    );
    worker.listener.done(link);
    let lost = is_loss(report.end);
    *budget -= report.served.as_slice().len() as u32;
    worker.reports.push_reserved(report);
    let stopped = sync_turn(context.rt, context.lock, &mut worker.pass);
    AfterLink { lost, stopped }
}

fn is_loss(end: LinkEnd) -> bool
    ensures { result ≡ is_loss end }
{
    matches!(end, LinkEnd::FileFault)
}

// Takes a turn that adds nothing. Returns whether the share was stopped by then.
fn sync_turn<R: Wait>(rt: &R, lock: &ShareLock<Share>, pass: &mut Pass<Share>) -> bool
    requires ready { IsReady (lock_id lock.now) pass.old }
    ensures ready { IsReady (lock_id lock.now) pass.new }
    ensures syncs { Syncs (known pass.old) (known pass.new) }
    ensures stopped { result ≡ is_stopped (known pass.new).seen }
{
    let mut turn = lock.take(rt, pass);
    let stopped = turn.state().is_stopped();
    lock.give(turn);
    stopped
}

//! Makes shares and connections that may wait for another worker's connection, and runs workers of a new share.
ghost use Rattle.std.specs.Prelude.{◌≡◌, ◌<◌, [], false, All, IfOk};
ghost use Rattle.share_lock.specs.Passes.{lock_id, IsReady};
ghost use Rattle.share_replies.specs.Laws.{maker};

use crate::gated::{Counts, Gated, GatedListener};
use edit_keeping::Keeps;
use item_model::{Batch, Edits};
use outside_net::{Listener, MemLink, MemSink, MemSource};
use share_asks::Role;
use share_core::Share;
use share_lock::{Bell, Pass, ShareLock};
use share_workers::{Worker, WorkerEnd, serve_all, serve_kept, serve_worker};
use std::alloc::{AllocError, Global};
use std::sync::Wait;
use std::sync::atomic::AtomicU64;
use std::thread::Threads;
use std::time::Clock;

// The maximum number of bytes that one read returns: the length of a request for the server's info.
const PIECE: usize = 29;

pub const INFO: &str = "GET /server-info HTTP/1.1\r\n\r\n";

pub const TWO_INFOS: &str = "GET /server-info HTTP/1.1\r\n\r\nGET /server-info HTTP/1.1\r\n\r\n";

// The number of lock handles: nine for workers, and the one from which theirs are drawn.
const HANDLES: u32 = 10;

/// A worker to which one connection comes: which requests are allowed on it, its input, and which count of the other
/// worker each read and each write waits for.
#[derive(Clone, Copy)]
pub struct Plan {
    pub role: Role,
    pub input: &'static str,
    pub reads_wait: &'static [u64],
    pub writes_wait: &'static [u64],
}

/// How many bytes were written on the connections of three workers, and how often all connections were probed.
#[derive(Drop)]
pub struct Written {
    pub first: AtomicU64,
    pub second: AtomicU64,
    pub third: AtomicU64,
    pub probes: AtomicU64,
}

impl Written {
    pub fn new() -> Written {
        Written {
            first: AtomicU64::new(0),
            second: AtomicU64::new(0),
            third: AtomicU64::new(0),
            probes: AtomicU64::new(0),
        }
    }
}

/// Returns a worker whose connection has the input `input` and never waits.
pub fn plain(role: Role, input: &'static str) -> Plan {
    Plan {
        role,
        input,
        reads_wait: &[],
        writes_wait: &[],
    }
}

fn coming_link<'a>(
    alloc: Global,
    plan: &Plan,
    counts: Counts<'a>,
) -> Result<Gated<'a>, AllocError> {
    let source = MemSource::new(alloc, plan.input.as_bytes(), PIECE, &[])?;
    let sink = MemSink::new(alloc, 4096, 50, &[])?;
    Ok(Gated {
        link: MemLink::new(source, sink),
        reads_wait: plan.reads_wait,
        writes_wait: plan.writes_wait,
        counts,
    })
}

/// A worker that is to begin: which requests are allowed on its connections, and its listener.
#[derive(Drop)]
pub struct Post<D> {
    pub role: Role,
    pub listener: D,
}

/// Returns a worker at whose listener the connection of `plan` comes.
pub fn post_of<'a>(
    alloc: Global,
    plan: &Plan,
    counts: Counts<'a>,
) -> Result<Post<GatedListener<'a>>, AllocError> {
    let listener = GatedListener {
        coming: Some(coming_link(alloc, plan, counts)?),
    };
    Ok(Post {
        role: plan.role,
        listener,
    })
}

/// Returns two workers whose connections may wait for each other.
pub fn posts_of<'a>(
    alloc: Global,
    plans: &(Plan, Plan),
    written: &'a Written,
) -> Result<Vec<Post<GatedListener<'a>>>, AllocError> {
    let (one, two, probes) = (&written.first, &written.second, &written.probes);
    let first = Counts {
        own: one,
        other: two,
        probes,
    };
    let second = Counts {
        own: two,
        other: one,
        probes,
    };
    let mut posts = Vec::new(alloc);
    posts.push(post_of(alloc, &plans.0, first)?)?;
    posts.push(post_of(alloc, &plans.1, second)?)?;
    Ok(posts)
}

fn new_share(alloc: Global) -> Result<Share, AllocError>
    ensures { IfOk result (λ s. All (λ e. maker e ≡ 0) s.history) }
{
    let first = Batch {
        edits: Edits::new(alloc),
    };
    match Share::open(alloc, "Demo", 16, first) {
        Ok(share) => Ok(share),
        Err(_) => Err(AllocError),
    }
}

/// Returns a new share under its lock, and the handle from which those of the workers are drawn.
fn locked_share(alloc: Global) -> Result<(ShareLock<Share>, Pass<Share>), AllocError>
    ensures { IfOk result (λ r. IsReady (lock_id r.0) r.1) }
{
    ShareLock::open(alloc, new_share(alloc)?, HANDLES)
}

/// Returns a new handle of the lock, for a worker that has not begun.
fn drawn<R: Wait>(rt: &R, lock: &ShareLock<Share>, first: &mut Pass<Share>) -> Pass<Share>
    requires ready { IsReady (lock_id lock.now) first.old }
    ensures first { IsReady (lock_id lock.now) first.new }
    ensures ready { IsReady (lock_id lock.now) result }
{
    lock.split(rt, first).unwrap()
}

/// Returns a worker that has not begun.
fn worker_at<D: Drop, R: Wait>(
    rt: &R,
    alloc: Global,
    lock: &ShareLock<Share>,
    first: &mut Pass<Share>,
    post: Post<D>,
) -> Worker<D>
    requires first { IsReady (lock_id lock.now) first.old }
    ensures first { IsReady (lock_id lock.now) first.new }
    ensures ready { IsReady (lock_id lock.now) result.pass }
    ensures running { result.end ≡ WorkerEnd.Running }
    ensures unreported { result.reports.items ≡ [] }
{
    let Post { role, listener } = post;
    Worker {
        pass: drawn(rt, lock, first),
        listener,
        role,
        reports: Vec::new(alloc),
        end: WorkerEnd::Running,
    }
}

/// Returns a worker for each of `posts`, none of which has begun.
fn workers_at<D: Drop, R: Wait>(
    rt: &R,
    alloc: Global,
    lock: &ShareLock<Share>,
    first: &mut Pass<Share>,
    posts: Vec<Post<D>>,
) -> Result<Vec<Worker<D>>, AllocError>
    requires { IsReady (lock_id lock.now) first.old }
    ensures first { IsReady (lock_id lock.now) first.new }
    ensures ready { IfOk result (λ ws. All (λ w. IsReady (lock_id lock.now) w.pass) ws.items) }
    ensures running { IfOk result (λ ws. All (λ w. w.end ≡ WorkerEnd.Running) ws.items) }
    ensures unreported { IfOk result (λ ws. All (λ w. w.reports.items ≡ []) ws.items) }
{
    let mut workers = Vec::new(alloc);
    for post in posts {
        workers.push(worker_at(rt, alloc, lock, first, post))?;
    }
    Ok(workers)
}

// Without clauses on what is served, so that other proofs do not unfold it.
fn serve<D: Listener + Drop + Send, R: Threads + Wait + Clock + Sync>(
    rt: &R,
    alloc: Global,
    lock: &ShareLock<Share>,
    workers: &mut Vec<Worker<D>>,
)
    requires ready { All (λ w. IsReady (lock_id lock.now) w.pass) workers.old.items }
    requires running { All (λ w. w.end ≡ WorkerEnd.Running) workers.old.items }
    requires unreported { All (λ w. w.reports.items ≡ []) workers.old.items }
{
    serve_all(rt, alloc, lock, &Bell::new(), workers);
}

fn serve_only<D: Listener, R: Wait + Clock>(
    rt: &R,
    alloc: Global,
    worker: &mut Worker<D>,
    lock: &ShareLock<Share>,
    bell: &Bell,
)
    requires ready { IsReady (lock_id lock.now) worker.old.pass }
    requires running { worker.old.end ≡ WorkerEnd.Running }
    requires unreported { worker.old.reports.items ≡ [] }
{
    serve_worker(rt, alloc, lock, bell, worker);
}

/// Puts a new share under a lock, and lets a worker serve at each of `posts`, each in its own thread. Returns the
/// workers after all have ended.
pub fn run<D: Listener + Drop + Send, R: Threads + Wait + Clock + Sync>(
    rt: &R,
    alloc: Global,
    posts: Vec<Post<D>>,
) -> Result<Vec<Worker<D>>, AllocError> {
    let (lock, mut first) = locked_share(alloc)?;
    let mut workers = workers_at(rt, alloc, &lock, &mut first, posts)?;
    serve(rt, alloc, &lock, &mut workers);
    Ok(workers)
}

/// Does what `run` does, and at the same time lets another worker serve at `kept`, whose edits `keeper` keeps. Returns
/// the workers, and that other worker.
pub fn run_kept<D: Listener + Drop + Send, F: Keeps + Send, R: Threads + Wait + Clock + Sync>(
    rt: &R,
    alloc: Global,
    posts: Vec<Post<D>>,
    kept: Post<D>,
    keeper: &mut F,
) -> Result<(Vec<Worker<D>>, Worker<D>), AllocError>
    requires { F.is_lost keeper.old ≡ false }
{
    let (lock, mut first) = locked_share(alloc)?;
    let mut workers = workers_at(rt, alloc, &lock, &mut first, posts)?;
    let mut worker = worker_at(rt, alloc, &lock, &mut first, kept);
    serve_kept(
        rt,
        alloc,
        &lock,
        &Bell::new(),
        &mut workers,
        &mut worker,
        keeper,
    );
    Ok((workers, worker))
}

/// Returns a worker of a new share after it has served at `listener`.
pub fn run_alone<D: Listener + Drop, R: Wait + Clock>(
    rt: &R,
    alloc: Global,
    role: Role,
    listener: D,
) -> Result<Worker<D>, AllocError> {
    let (lock, mut first) = locked_share(alloc)?;
    let bell = Bell::new();
    let mut worker = worker_at(rt, alloc, &lock, &mut first, Post { role, listener });
    serve_only(rt, alloc, &mut worker, &lock, &bell);
    Ok(worker)
}

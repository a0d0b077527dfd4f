//! Writes the first line of a share, and puts the share under its lock.

ghost use Rattle.std.specs.Prelude.{◌≡◌, ◌≤◌, All, IfOk};
ghost use Rattle.command_core.specs.Seen.{output_of};
ghost use Rattle.share_replies.specs.Laws.{maker};
ghost use Rattle.share_crew.specs.Begun.{WritesAndLocks, HasRoom};

use command_core::out_of_memory;
use outside_net::{Sink, put_all};
use share_core::Share;
use share_lock::{Pass, ShareLock};
use share_server::LinkReport;
use share_workers::Worker;
use std::alloc::{AllocError, Global};

/// A share under its lock, the first lock handle, and the capacity for workers and reports.
pub struct LockedShare<D> {
    pub lock: ShareLock<Share>,
    pub first: Pass<Share>,
    pub room: WorkerBuffers<D>,
}

/// Lists of workers and of the reports of their connections, with the capacity that they need.
#[derive(Drop)]
pub struct WorkerBuffers<D> {
    pub crew: Vec<Worker<D>>,
    pub links: Vec<Vec<LinkReport>>,
}

impl<D: Drop> WorkerBuffers<D> {
    /// Returns empty lists with capacity for `workers` workers.
    ///
    /// # Errors
    ///
    /// Returns `AllocError` if an allocation fails.
    pub fn of(alloc: Global, workers: usize) -> Result<WorkerBuffers<D>, AllocError>
        ensures { IfOk result (HasRoom workers) }
    {
        let crew = Vec::with_capacity(alloc, workers)?;
        let links = Vec::with_capacity(alloc, workers)?;
        Ok(WorkerBuffers { crew, links })
    }
}

/// Writes `line`, and puts the share under a lock for `passes` handles.
///
/// # Errors
///
/// Returns the status that the program ends with: 5 if the output failed, and 9 if an allocation failed and the line of
/// that was written.
pub fn write_and_lock<W: Sink, D: Drop>(
    alloc: Global,
    output: &mut W,
    line: &[u8],
    share: Share,
    passes: u32,
    room: WorkerBuffers<D>,
) -> Result<LockedShare<D>, u8>
    requires passes { 1 ≤ passes }
    requires opening { All (λ e. maker e ≡ 0) share.history }
    ensures { WritesAndLocks passes share room line.now
        (output_of W.Sink output.old)
        (output_of W.Sink output.new)
        result }
{
    match put_all(output, line) {
        Ok(()) => match ShareLock::open(alloc, share, passes) {
            Ok((lock, first)) => Ok(LockedShare { lock, first, room }),
            Err(AllocError) => Err(out_of_memory(output, None).status),
        },
        Err(_) => Err(5),
    }
}

//! How the workers of a share ended, as a line and a status.

ghost use Rattle.std.specs.Prelude.{◌≡◌, map};
ghost use Rattle.share_crew.specs.Verdicts.{end_number, has_end, verdict_of, verdict_line, verdict_status, with_memory};

use share_workers::{Worker, WorkerEnd};

/// How all workers ended, by the end that counts most.
#[derive(Clone, Copy, PartialEq, Eq)]
pub enum Verdict {
    /// Each served all connections that came, or until the share was stopped.
    Done,
    /// A listener failed to accept.
    NetworkFailed,
    /// An edit could not be kept.
    FileFailed,
    /// An allocation for a report failed.
    OutOfMemory,
    /// A worker reached its limit.
    Exhausted,
}

impl Verdict {
    /// Returns the line that the user sees, which is empty for `Done`.
    pub fn line(self) -> &'static [u8]
        ensures { result.now ≡ verdict_line self }
    {
        match self {
            Verdict::Done => b"",
            Verdict::NetworkFailed => b"network failed\n",
            Verdict::FileFailed => b"file failed\n",
            Verdict::OutOfMemory => b"memory\n",
            Verdict::Exhausted => b"limit: requests\n",
        }
    }

    /// Returns the status that the program ends with.
    pub fn status(self) -> u8
        ensures { result ≡ verdict_status self }
    {
        match self {
            Verdict::Done => 0,
            Verdict::NetworkFailed => 6,
            Verdict::FileFailed => 10,
            Verdict::OutOfMemory => 9,
            Verdict::Exhausted => 8,
        }
    }

    /// Returns the verdict if an allocation failed besides.
    pub fn with_memory(self) -> Verdict
        ensures { result ≡ with_memory self }
    {
        match self {
            Verdict::NetworkFailed => Verdict::NetworkFailed,
            Verdict::FileFailed => Verdict::FileFailed,
            _ => Verdict::OutOfMemory,
        }
    }
}

/// Returns the verdict on workers that have ended.
pub fn verdict_of<D>(crew: &[Worker<D>]) -> Verdict
    ensures { result ≡ verdict_of (map (λ w. w.end) crew.now) }
{
    if has_end(crew, WorkerEnd::AcceptFault) {
        return Verdict::NetworkFailed;
    }
    if has_end(crew, WorkerEnd::FileFault) {
        return Verdict::FileFailed;
    }
    if has_end(crew, WorkerEnd::Memory) {
        return Verdict::OutOfMemory;
    }
    if has_end(crew, WorkerEnd::Spent) {
        return Verdict::Exhausted;
    }
    Verdict::Done
}

// Returns whether a worker ended by `end`.
fn has_end<D>(crew: &[Worker<D>], end: WorkerEnd) -> bool
    ensures { result ≡ has_end end (map (λ w. w.end) crew.now) }
{
    let number = end_number(end);
    for worker in crew {
        if end_number(worker.end) == number {
            return true;
        }
    }
    false
}

// Returns the number of an end; numbers of different ends differ.
fn end_number(end: WorkerEnd) -> u8
    ensures { result ≡ end_number end }
{
    match end {
        WorkerEnd::Running => 0,
        WorkerEnd::Stopped => 1,
        WorkerEnd::NoMoreLinks => 2,
        WorkerEnd::Spent => 3,
        WorkerEnd::AcceptFault => 4,
        WorkerEnd::Memory => 5,
        WorkerEnd::FileFault => 6,
    }
}

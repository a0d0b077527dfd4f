//! A source over bytes in memory.
ghost use Rattle.std.specs.Prelude.{◌≡◌, ◌↔◌, ◌<◌, ◌≤◌, ℕ, min, Some, None, IfOk, IsErr, Contains, length, vec_len};
ghost use Rattle.std.specs.Io.{ReadsAtMost};
ghost use Rattle.std.specs.Io.KnownBytes.{ReadConsumes};
ghost use Rattle.outside_net.specs.Counts.{CountsFaults};
ghost use Rattle.outside_net.specs.Told.{AnswersEnd};

use crate::memory::copied;
use crate::source::Source;
use outside_disks::{Failed, Faulted, counted};
use std::alloc::{AllocError, Global};

/// Reads the bytes that it was made with, and knows those that are left. Some of its calls may be set to fail; the
/// first call has the number 1.
pub struct MemSource {
    bytes: Vec<u8>,
    given: usize,
    per_call: usize,
    failing: Vec<u64>,
    calls: u64,
    faults: u64,
    ghost in_range: { given ≤ vec_len bytes },
    ghost moves: { 0 < per_call },
}

impl Drop for MemSource {
    fn drop(self) {
        let MemSource {
            bytes: _,
            given: _,
            per_call: _,
            failing: _,
            calls: _,
            faults: _,
        } = self;
    }
}

impl MemSource {
    ghost use Rattle.outside_net.specs.MemSource.{per_call as pieces_of, failing_calls, next_call};

    /// Returns a source over a copy of the bytes. One read returns at most `per_call` of them, and the calls with the
    /// numbers `failing` fail.
    pub fn new(
        alloc: Global,
        bytes: &[u8],
        per_call: usize,
        failing: &[u64],
    ) -> Result<MemSource, AllocError>
        requires { 0 < per_call }
        ensures left { IfOk result (λ source. ⟦<MemSource as Source>⟧.left source
            ≡ Some bytes.now) }
        ensures faults { IfOk result (λ source. ⟦<MemSource as Faulted>⟧.faults source ≡ 0) }
        ensures pieces { IfOk result (λ source. pieces_of source ≡ per_call) }
        ensures failing_calls { IfOk result (λ source. failing_calls source ≡ failing.now) }
        ensures first_call { IfOk result (λ source. next_call source ≡ 1) }
    {
        Ok(MemSource {
            bytes: copied(alloc, bytes)?,
            given: 0,
            per_call,
            failing: copied(alloc, failing)?,
            calls: 0,
            faults: 0,
        })
    }
}

impl Faulted for MemSource {
    ghost faults = { λ source. source.faults };
}

impl Source for MemSource {
    ghost use Rattle.outside_net.specs.MemSource.{left_of, per_call as pieces_of, failing_calls, next_call, CountsCall};

    ghost left = { λ source. Some (left_of source) };

    ghost beside_left = { λ _. None };

    fn read(&mut self, room: &mut [u8]) -> Result<usize, Failed>
        requires { 0 < length room.old }
        ensures within { ReadsAtMost result room.new }
        ensures moved { ReadConsumes (Some (left_of self.old))
            (Some (left_of self.new)) result room.new }
        ensures end { IfOk result (λ n. AnswersEnd (Some (left_of self.old)) n) }
        ensures count { CountsFaults self.old.faults self.new.faults result }
        ensures amount { IfOk result (λ n.
            n ≡ min (min (length (left_of self.old)) (length room.old)) (pieces_of self.old)) }
        ensures called { CountsCall self.old self.new }
        ensures fails { IsErr result ↔ Contains (failing_calls self.old) (next_call self.old) }
    {
        self.calls = self.calls.saturating_add(1);
        if self.failing.contains(&self.calls) {
            return Err(counted(&mut self.faults));
        }
        let (_, rest) = self.bytes.as_slice().split_at(self.given);
        let n = rest.len().min(room.len()).min(self.per_call);
        room[..n].copy_from_slice(&rest[..n]);
        self.given += n;
        Ok(n)
    }
}

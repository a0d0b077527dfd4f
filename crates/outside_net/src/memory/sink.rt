//! A sink over a buffer in memory.
ghost use Rattle.std.specs.Prelude.{◌≡◌, ◌↔◌, ◌⊎◌, ◌<◌, ◌≤◌, ◌+◌, ℕ, min, [], Some, None, IfOk, IsOk, IsErr, MatchResult, Contains, length, vec_len, vec_capacity};
ghost use Rattle.std.specs.Io.KnownBytes.{WriteAppends};
ghost use Rattle.outside_net.specs.Counts.{CountsFaults};

use crate::memory::copied;
use crate::sink::Sink;
use outside_disks::{Failed, Faulted, counted};
use std::alloc::{AllocError, Global};

/// Writes bytes to a buffer that was allocated when the sink was made, and knows them. Some of its calls may be set
/// to fail; the first call has the number 1.
pub struct MemSink {
    taken: Vec<u8>,
    room: usize,
    per_call: usize,
    failing: Vec<u64>,
    calls: u64,
    faults: u64,
    ghost fits: { vec_len taken ≤ room },
    ghost has_room: { room ≤ vec_capacity taken },
    ghost moves: { 0 < per_call },
}

impl Drop for MemSink {
    fn drop(self) {
        let MemSink {
            taken: _,
            room: _,
            per_call: _,
            failing: _,
            calls: _,
            faults: _,
        } = self;
    }
}

impl MemSink {
    ghost use Rattle.outside_net.specs.MemSink.{room_left, per_call as pieces_of, failing_calls, next_call};

    /// Returns a sink with capacity for `room` bytes. One write takes at most `per_call` of them, and the calls with
    /// the numbers `failing` fail.
    pub fn new(
        alloc: Global,
        room: usize,
        per_call: usize,
        failing: &[u64],
    ) -> Result<MemSink, AllocError>
        requires { 0 < per_call }
        ensures taken { IfOk result (λ sink. ⟦<MemSink as Sink>⟧.taken sink ≡ Some []) }
        ensures faults { IfOk result (λ sink. ⟦<MemSink as Faulted>⟧.faults sink ≡ 0) }
        ensures room { IfOk result (λ sink. room_left sink ≡ room) }
        // If no call is set to fail, a write within the capacity succeeds.
        ensures sure { IfOk result (λ sink. failing.now ≡ []
            → ⟦<MemSink as Sink>⟧.sure_room sink ≡ room) }
        ensures pieces { IfOk result (λ sink. pieces_of sink ≡ per_call) }
        ensures failing_calls { IfOk result (λ sink. failing_calls sink ≡ failing.now) }
        ensures first_call { IfOk result (λ sink. next_call sink ≡ 1) }
    {
        Ok(MemSink {
            taken: Vec::with_capacity(alloc, room)?,
            room,
            per_call,
            failing: copied(alloc, failing)?,
            calls: 0,
            faults: 0,
        })
    }

    /// Returns the bytes that were written to it.
    pub fn taken(&self) -> &[u8]
        ensures { Some result.now ≡ ⟦<MemSink as Sink>⟧.taken self.now }
    {
        self.taken.as_slice()
    }

    /// Returns the bytes that were written to it, without a copy.
    pub fn into_taken(self) -> Vec<u8>
        ensures { Some result.items ≡ ⟦<MemSink as Sink>⟧.taken self }
    {
        let MemSink {
            taken,
            room: _,
            per_call: _,
            failing: _,
            calls: _,
            faults: _,
        } = self;
        taken
    }
}

impl Faulted for MemSink {
    ghost faults = { λ sink. sink.faults };
}

impl Sink for MemSink {
    ghost use Rattle.outside_net.specs.MemSink.{taken_of, room_left, per_call as pieces_of, failing_calls, next_call, sure_room as sure_room_of, CountsCall};

    ghost taken = { λ sink. Some (taken_of sink) };

    ghost beside_taken = { λ _. None };

    ghost sure_room = { sure_room_of };

    fn write(&mut self, piece: &[u8]) -> Result<usize, Failed>
        requires { 0 < length piece.now }
        ensures some { IfOk result (λ n. 0 < n) }
        ensures within { IfOk result (λ n. n ≤ length piece.now) }
        ensures taken_grows { WriteAppends (Some (taken_of self.old))
            (Some (taken_of self.new)) result piece.now }
        ensures sure { 0 < sure_room_of self.old → IsOk result }
        ensures sure_stays { IfOk result (λ n. sure_room_of self.old ≤ sure_room_of self.new + n) }
        ensures count { CountsFaults self.old.faults self.new.faults result }
        ensures amount { IfOk result (λ n.
            n ≡ min (min (length piece.now) (pieces_of self.old)) (room_left self.old)) }
        ensures room_shrinks { MatchResult result
            (λ n. room_left self.new + n ≡ room_left self.old) (λ _. room_left self.new ≡ room_left self.old) }
        ensures called { CountsCall self.old self.new }
        ensures fails { IsErr result
            ↔ (Contains (failing_calls self.old) (next_call self.old) ⊎ (room_left self.old ≡ 0)) }
    {
        self.calls = self.calls.saturating_add(1);
        if self.failing.contains(&self.calls) {
            return Err(counted(&mut self.faults));
        }
        let n = piece
            .len()
            .min(self.per_call)
            .min(self.room - self.taken.len());
        if n == 0 {
            return Err(counted(&mut self.faults));
        }
        self.taken.extend_from_slice(&piece[..n]).unwrap();
        Ok(n)
    }
}

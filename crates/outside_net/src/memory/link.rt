//! A connection in memory.
ghost use Rattle.std.specs.Prelude.{◌≡◌, ◌↔◌, ◌⊎◌, ◌<◌, ◌≤◌, ◌+◌, ℕ, min, [], Some, IfOk, IsOk, IsErr, MatchResult, Contains, length, refl};
ghost use Rattle.std.specs.Io.{ReadsAtMost};
ghost use Rattle.std.specs.Io.KnownBytes.{ReadConsumes, WriteAppends};
ghost use Rattle.outside_net.specs.Counts.{CountsFaults};
ghost use Rattle.outside_net.specs.Told.{AnswersEnd};

use crate::link::Link;
use crate::memory::copied;
use crate::memory::sink::MemSink;
use crate::memory::source::MemSource;
use crate::sink::Sink;
use crate::source::Source;
use outside_disks::{Failed, Faulted, counted};
use std::alloc::{AllocError, Global};
use std::marker::Model;

/// Reads from a source, and writes to a sink; the bytes of both are known. Source and sink say which reads and which
/// writes fail, and the connection has a list of the probes that fail. The first probe has the number 1.
pub struct MemLink {
    input: MemSource,
    output: MemSink,
    failing: Option<Vec<u64>>,
    probes: u64,
    faults: u64,
}

impl Drop for MemLink {
    fn drop(self) {
        let MemLink {
            input: _,
            output: _,
            failing: _,
            probes: _,
            faults: _,
        } = self;
    }
}

impl MemLink {
    ghost use Rattle.outside_net.specs.MemLink.{source_in, sink_in, failing_probes, next_probe, returned_link};

    /// Returns a connection whose error counter is 0 and whose probes succeed.
    pub fn new(input: MemSource, output: MemSink) -> MemLink
        ensures input { source_in result ≡ input }
        ensures output { sink_in result ≡ output }
        ensures failing_probes { failing_probes result ≡ [] }
        ensures first_probe { next_probe result ≡ 1 }
        ensures faults { ⟦<MemLink as Faulted>⟧.faults result ≡ 0 }
    {
        MemLink {
            input,
            output,
            failing: None,
            probes: 0,
            faults: 0,
        }
    }

    /// Returns a connection whose error counter is 0. The probes with the numbers `failing` fail.
    pub fn with_failing_probes(
        alloc: Global,
        input: MemSource,
        output: MemSink,
        failing: &[u64],
    ) -> Result<MemLink, AllocError>
        ensures input { IfOk result (λ link. source_in link ≡ input) }
        ensures output { IfOk result (λ link. sink_in link ≡ output) }
        ensures failing_probes { IfOk result (λ link. failing_probes link ≡ failing.now) }
        ensures first_probe { IfOk result (λ link. next_probe link ≡ 1) }
        ensures faults { IfOk result (λ link. ⟦<MemLink as Faulted>⟧.faults link ≡ 0) }
    {
        let mut link = MemLink::new(input, output);
        link.failing = Some(copied(alloc, failing)?);
        Ok(link)
    }

    // Returns the numbers of the probes that fail.
    fn failing(&self) -> &[u64]
        ensures { result.now ≡ failing_probes self.now }
    {
        match &self.failing {
            Some(failing) => failing.as_slice(),
            None => &[],
        }
    }

    /// Returns the bytes that were written to it.
    pub fn taken(&self) -> &[u8]
        ensures { Some result.now ≡ ⟦<MemLink as Sink>⟧.taken self.now }
    {
        self.output.taken()
    }

    /// Returns what is known of it after it is returned.
    pub(crate) fn returned(self) -> Returned
        ensures { result ≡ returned_link self }
    {
        let MemLink {
            input: _,
            output,
            failing: _,
            probes: _,
            faults,
        } = self;
        Returned {
            faulted: faults > 0,
            bytes: output.into_taken(),
        }
    }
}

impl Faulted for MemLink {
    ghost faults = { λ link. link.faults };
}

impl Source for MemLink {
    ghost use Rattle.outside_net.specs.MemSource.{left_of, per_call as pieces_of, failing_calls, next_call, CountsCall};
    ghost use Rattle.outside_net.specs.MemSink.{taken_of};
    ghost use Rattle.outside_net.specs.MemLink.{source_in, sink_in, ProbesStay};

    ghost left = { λ link. Some (left_of link.input) };

    ghost beside_left = { λ link. Some (taken_of link.output) };

    fn read(&mut self, room: &mut [u8]) -> Result<usize, Failed>
        requires { 0 < length room.old }
        ensures within { ReadsAtMost result room.new }
        ensures moved { ReadConsumes (Some (left_of (source_in self.old)))
            (Some (left_of (source_in self.new))) result room.new }
        ensures end { IfOk result (λ n. AnswersEnd (Some (left_of (source_in self.old))) n) }
        ensures beside { sink_in self.new ≡ sink_in self.old }
        ensures count { CountsFaults self.old.faults self.new.faults result }
        ensures amount { IfOk result (λ n.
            n ≡ min (min (length (left_of (source_in self.old))) (length room.old)) (pieces_of (source_in self.old))) }
        ensures called { CountsCall (source_in self.old) (source_in self.new) }
        ensures probes_stay { ProbesStay self.old self.new }
        ensures fails { IsErr result
            ↔ Contains (failing_calls (source_in self.old)) (next_call (source_in self.old)) }
    {
        match self.input.read(room) {
            Ok(n) => Ok(n),
            Err(Failed) => Err(counted(&mut self.faults)),
        }
    }
}

impl Sink for MemLink {
    ghost use Rattle.outside_net.specs.MemSource.{left_of};
    ghost use Rattle.outside_net.specs.MemSink.{taken_of, room_left, per_call as pieces_of, failing_calls, next_call, sure_room as sure_room_of, CountsCall};
    ghost use Rattle.outside_net.specs.MemLink.{source_in, sink_in, ProbesStay};

    ghost taken = { λ link. Some (taken_of link.output) };

    ghost beside_taken = { λ link. Some (left_of link.input) };

    ghost sure_room = { λ link. sure_room_of link.output };

    fn write(&mut self, piece: &[u8]) -> Result<usize, Failed>
        requires { 0 < length piece.now }
        ensures some { IfOk result (λ n. 0 < n) }
        ensures within { IfOk result (λ n. n ≤ length piece.now) }
        ensures taken_grows { WriteAppends (Some (taken_of (sink_in self.old)))
            (Some (taken_of (sink_in self.new))) result piece.now }
        ensures sure { 0 < sure_room_of (sink_in self.old) → IsOk result }
        ensures sure_stays { IfOk result
            (λ n. sure_room_of (sink_in self.old) ≤ sure_room_of (sink_in self.new) + n) }
        ensures beside { source_in self.new ≡ source_in self.old }
        ensures count { CountsFaults self.old.faults self.new.faults result }
        ensures amount { IfOk result (λ n.
            n ≡ min (min (length piece.now) (pieces_of (sink_in self.old))) (room_left (sink_in self.old))) }
        ensures room_shrinks { MatchResult result
            (λ n. room_left (sink_in self.new) + n ≡ room_left (sink_in self.old))
            (λ _. room_left (sink_in self.new) ≡ room_left (sink_in self.old)) }
        ensures called { CountsCall (sink_in self.old) (sink_in self.new) }
        ensures probes_stay { ProbesStay self.old self.new }
        ensures fails { IsErr result
            ↔ (Contains (failing_calls (sink_in self.old)) (next_call (sink_in self.old)) ⊎ (room_left (sink_in self.old) ≡ 0)) }
    {
        match self.output.write(piece) {
            Ok(n) => Ok(n),
            Err(Failed) => Err(counted(&mut self.faults)),
        }
    }
}

impl Link for MemLink {
    ghost use Rattle.outside_net.specs.MemLink.{source_in, sink_in, failing_probes, next_probe, CountsProbe};

    fn probe(&mut self) -> Result<(), Failed>
        ensures taken { sink_in self.new ≡ sink_in self.old }
        ensures beside { source_in self.new ≡ source_in self.old }
        ensures count { CountsFaults self.old.faults self.new.faults result }
        ensures called { CountsProbe self.old self.new }
        ensures fails { IsErr result ↔ Contains (failing_probes self.old) (next_probe self.old) }
    {
        self.probes = self.probes.saturating_add(1);
        if self.failing().contains(&self.probes) {
            return Err(counted(&mut self.faults));
        }
        Ok(())
    }

    ghost read_leaves_taken = { λ _. refl };

    ghost write_leaves_left = { λ _. refl };
}

/// What is known of a connection that was returned.
#[derive(Drop)]
pub struct Returned {
    /// The bytes that were written to it.
    pub bytes: Vec<u8>,
    /// Whether a call on it failed.
    pub faulted: bool,
}

impl Model for Returned {
    ghost use Rattle.std.specs.Prelude.{List, ℕ, Bool};

    ghost Value = { List ℕ × Bool };

    ghost view = { λ a. (a.bytes.items, a.faulted) };
}

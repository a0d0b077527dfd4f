//! A listener in memory.
ghost use Rattle.std.specs.Prelude.{◌≡◌, ◌↔◌, ◌∷◌, ◌++◌, ◌-◌, ◌+◌, ◌^◌, ℕ, min, [], Some, nat_lt, IfOk, IfSome, IsErr, option_to_list, OnOk, OnErr, All, Contains};
ghost use Rattle.std.specs.Option.{option_copied};
ghost use Rattle.outside_net.specs.Counts.{CountsFaults};
ghost use Rattle.outside_net.specs.Told.{BeginsEmpty, GrowsByTold};
ghost use Rattle.outside_net.specs.Places.{Accepts, returned};
ghost use Rattle.outside_net.specs.MemLink.{IsNew};

use crate::memory::copied;
use crate::memory::kept::BoundedLog;
use crate::memory::link::{MemLink, Returned};
use crate::net::Listener;
use outside_disks::{Failed, Faulted, counted};
use std::alloc::{AllocError, Global};
use std::collections::VecDeque;

/// A listener that accepts the connections that were added to it, in order, and then no more.
///
/// It knows the returned connections up to its capacity. Some of its waits may be set to fail; the first wait has the
/// number 1.
pub struct MemListener {
    coming: VecDeque<MemLink>,
    failing: Vec<u64>,
    calls: u64,
    written: BoundedLog<Returned>,
    faults: u64,
    ghost new_links: { All IsNew coming.items },
}

impl Drop for MemListener {
    fn drop(self) {
        let MemListener {
            coming: _,
            failing: _,
            calls: _,
            written: _,
            faults: _,
        } = self;
    }
}

impl MemListener {
    ghost use Rattle.outside_net.specs.MemListener.{coming_links, written_of, faults_of, room_of, failing_calls, next_call};

    /// Returns a listener without connections, with capacity for `room` returned ones. The waits with the numbers
    /// `failing` fail.
    pub fn new(alloc: Global, failing: &[u64], room: usize) -> Result<MemListener, AllocError>
        ensures coming { IfOk result (λ listener. coming_links listener ≡ []) }
        ensures written { IfOk result (λ listener. written_of listener ≡ Some []) }
        ensures faults { IfOk result (λ listener. ⟦<MemListener as Faulted>⟧.faults listener ≡ 0) }
        ensures room { IfOk result (λ listener. room_of listener ≡ room) }
        ensures failing_calls { IfOk result (λ listener. failing_calls listener ≡ failing.now) }
        ensures first_call { IfOk result (λ listener. next_call listener ≡ 1) }
    {
        Ok(MemListener {
            coming: VecDeque::new(alloc),
            failing: copied(alloc, failing)?,
            calls: 0,
            written: BoundedLog::with_room(alloc, room)?,
            faults: 0,
        })
    }

    /// Adds a connection that will come after the others.
    pub fn add(&mut self, link: MemLink) -> Result<(), AllocError>
        requires { IsNew link }
        ensures ok { OnOk result (coming_links self.new ≡ coming_links self.old ++ link ∷ []) }
        ensures err { OnErr result (coming_links self.new ≡ coming_links self.old) }
        ensures written_stays { written_of self.new ≡ written_of self.old }
        ensures room_stays { room_of self.new ≡ room_of self.old }
        ensures failing_stays { failing_calls self.new ≡ failing_calls self.old }
        ensures call_stays { next_call self.new ≡ next_call self.old }
        ensures count { self.new.faults ≡ self.old.faults }
    {
        self.coming.push_back(link)?;
        Ok(())
    }

    /// Returns the connections returned so far, if they are known.
    pub fn written(&self) -> Option<&[Returned]>
        ensures { option_copied result ≡ written_of self.now }
    {
        self.written.items()
    }

    pub(crate) fn is_faulted(&self) -> bool
        ensures { result ≡ nat_lt 0 (faults_of self.now) }
    {
        self.faults > 0
    }

    // Returns the connections returned so far, for the network that opened the listener.
    pub(crate) fn into_written(self) -> BoundedLog<Returned>
        ensures { result ≡ self.written }
    {
        let MemListener {
            coming: _,
            failing: _,
            calls: _,
            written,
            faults: _,
        } = self;
        written
    }
}

impl Faulted for MemListener {
    ghost faults = { λ listener. listener.faults };
}

impl Listener for MemListener {
    type L = MemLink;

    ghost use Rattle.std.specs.Prelude.{Some};
    ghost use Rattle.outside_net.specs.MemListener.{coming_of, coming_links, written_of, room_of, failing_calls, next_call};
    ghost use Rattle.outside_net.specs.MemListener.{CountsCall};
    ghost use Rattle.outside_net.specs.MemLink.{source_in, sink_in, faults_of, returned_link};
    ghost use Rattle.outside_net.specs.MemSource.{left_of};
    ghost use Rattle.outside_net.specs.MemSink.{taken_of};
    ghost use Rattle.outside_net.specs.Kept.{keeps};

    ghost coming = { λ listener. Some (coming_of listener) };

    ghost written = { written_of };

    fn accept(&mut self) -> Result<Option<MemLink>, Failed>
        ensures next { IfOk result (Accepts (λ link. Some (left_of (source_in link)))
            (λ link. Some (taken_of (sink_in link)))
            (Some (coming_of self.old)) (Some (coming_of self.new))) }
        ensures fresh { IfOk result (λ link. IfSome link (λ l. faults_of l ≡ 0)) }
        ensures unwritten { IfOk result (λ link. IfSome link (λ l.
            BeginsEmpty (written_of self.old) (Some (taken_of (sink_in l))))) }
        ensures first { IfOk result (λ link. coming_links self.old
            ≡ option_to_list link ++ coming_links self.new) }
        ensures failed { OnErr result (coming_links self.new ≡ coming_links self.old) }
        ensures fails { IsErr result ↔ Contains (failing_calls self.old) (next_call self.old) }
        ensures called { CountsCall self.old self.new }
        ensures written_stays { written_of self.new ≡ written_of self.old }
        ensures room_stays { room_of self.new ≡ room_of self.old }
        ensures count { CountsFaults self.old.faults self.new.faults result }
    {
        self.calls = self.calls.saturating_add(1);
        if self.failing.contains(&self.calls) {
            return Err(counted(&mut self.faults));
        }
        Ok(self.coming.pop_front())
    }

    fn wake_acceptors(&mut self) {}

    fn done(&mut self, link: MemLink)
        ensures coming_stays { coming_links self.new ≡ coming_links self.old }
        ensures written_grows { GrowsByTold (written_of self.old) (written_of self.new)
            (returned (Some (taken_of (sink_in link))) (faults_of link)) }
        ensures told { written_of self.new
            ≡ keeps (written_of self.old) (room_of self.old) (returned_link link ∷ []) }
        ensures room { room_of self.new ≡ room_of self.old - 1 }
        ensures count { self.new.faults ≡ self.old.faults }
    {
        self.written.keep(link.returned());
    }
}

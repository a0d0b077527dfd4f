//! A network in memory.
ghost use Rattle.std.specs.Prelude.{◌≡◌, ◌↔◌, ◌⊎◌, ◌∷◌, ◌++◌, ◌-◌, ◌+◌, ◌^◌, ◌<◌, ◌≤◌, ℕ, min, [], Some, None, IfOk, IfSome, IsErr, IsErrOf, OnOk, OnErr, All, Contains, map, length, vec_len, take, drop, option_and_then};
ghost use Rattle.std.specs.Option.{option_copied};
ghost use Rattle.outside_net.specs.Counts.{CountsFaults, RisesWith};
ghost use Rattle.outside_net.specs.NetCounts.{CountsNetFaults};
ghost use Rattle.outside_net.specs.Open.{Opens, Closes};
ghost use Rattle.outside_net.specs.Told.{BeginsEmpty, Grows, GrowsByTold};
ghost use Rattle.outside_net.specs.Places.{OpensListeners, returned};
ghost use Rattle.outside_net.specs.MemLink.{IsNew as is_new_link};
ghost use Rattle.outside_net.specs.MemListener.{IsNew as is_new_listener, coming_of};

use crate::memory::asked::{Asked, PLACE_ROOM};
use crate::memory::copied;
use crate::memory::kept::BoundedLog;
use crate::memory::link::{MemLink, Returned};
use crate::memory::listener::MemListener;
use crate::net::{Net, NetError};
use outside_disks::{Failed, Faulted, counted};
use std::alloc::{AllocError, Global};
use std::collections::VecDeque;
use std::mem;

/// A network of listeners and connections that were added to it. Each is returned once, in order, whatever the
/// address. If too few are left, or more would be open than `u64` counts, the call fails.
///
/// It knows the requested addresses and the returned connections up to its capacity. Some of its calls of `listen`
/// and `connect` may be set to fail; the first has the number 1.
pub struct MemNet {
    listeners: Vec<MemListener>,
    links: VecDeque<MemLink>,
    failing: Vec<u64>,
    calls: u64,
    asked: BoundedLog<Asked>,
    written: BoundedLog<Returned>,
    open_count: u64,
    faults: u64,
    ghost new_listeners: { All is_new_listener listeners.items },
    ghost new_links: { All is_new_link links.items },
}

impl Drop for MemNet {
    fn drop(self) {
        let MemNet {
            listeners: _,
            links: _,
            failing: _,
            calls: _,
            asked: _,
            written: _,
            open_count: _,
            faults: _,
        } = self;
    }
}

impl MemNet {
    ghost use Rattle.outside_net.specs.MemNet.{listeners_of, links_of, asked_of, asked_room, written_of, written_room, open_of, failing_calls, next_call, with_place, CountsCall, IsSetAlike};

    /// Returns a network that reaches nothing, without capacity for known lists.
    pub fn new(alloc: Global) -> MemNet
        ensures listeners { listeners_of result ≡ [] }
        ensures links { links_of result ≡ [] }
        ensures asked { asked_of result ≡ Some [] }
        ensures written { written_of result ≡ Some [] }
        ensures open_count { open_of result ≡ 0 }
        ensures faults { ⟦<MemNet as Faulted>⟧.faults result ≡ 0 }
        ensures failing_calls { failing_calls result ≡ [] }
        ensures first_call { next_call result ≡ 1 }
    {
        MemNet {
            listeners: Vec::new(alloc),
            links: VecDeque::new(alloc),
            failing: Vec::new(alloc),
            calls: 0,
            asked: BoundedLog::new(alloc),
            written: BoundedLog::new(alloc),
            open_count: 0,
            faults: 0,
        }
    }

    /// Returns a network that reaches nothing yet, with capacity for `places` requested addresses and `links`
    /// returned connections. The calls with the numbers `failing` fail.
    pub fn with_room(
        alloc: Global,
        failing: &[u64],
        places: usize,
        links: usize,
    ) -> Result<MemNet, AllocError>
        ensures listeners { IfOk result (λ net. listeners_of net ≡ []) }
        ensures links { IfOk result (λ net. links_of net ≡ []) }
        ensures asked { IfOk result (λ net. asked_of net ≡ Some []) }
        ensures asked_room { IfOk result (λ net. asked_room net ≡ places) }
        ensures written { IfOk result (λ net. written_of net ≡ Some []) }
        ensures written_room { IfOk result (λ net. written_room net ≡ links) }
        ensures open_count { IfOk result (λ net. open_of net ≡ 0) }
        ensures faults { IfOk result (λ net. ⟦<MemNet as Faulted>⟧.faults net ≡ 0) }
        ensures failing_calls { IfOk result (λ net. failing_calls net ≡ failing.now) }
        ensures first_call { IfOk result (λ net. next_call net ≡ 1) }
    {
        let mut net = MemNet::new(alloc);
        net.failing = copied(alloc, failing)?;
        net.asked = BoundedLog::with_room(alloc, places)?;
        net.written = BoundedLog::with_room(alloc, links)?;
        Ok(net)
    }

    /// Adds a listener that is opened after the others.
    pub fn add_listener(&mut self, listener: MemListener) -> Result<(), AllocError>
        requires { is_new_listener listener }
        ensures ok { OnOk result (listeners_of self.new ≡ listeners_of self.old ++ listener ∷ []) }
        ensures err { OnErr result (listeners_of self.new ≡ listeners_of self.old) }
        ensures rest { IsSetAlike self.old self.new }
        ensures links_stay { links_of self.new ≡ links_of self.old }
    {
        self.listeners.push(listener)?;
        Ok(())
    }

    /// Adds a connection that is made after the others.
    pub fn add_link(&mut self, link: MemLink) -> Result<(), AllocError>
        requires { is_new_link link }
        ensures ok { OnOk result (links_of self.new ≡ links_of self.old ++ link ∷ []) }
        ensures err { OnErr result (links_of self.new ≡ links_of self.old) }
        ensures rest { IsSetAlike self.old self.new }
        ensures listeners_stay { listeners_of self.new ≡ listeners_of self.old }
    {
        self.links.push_back(link)?;
        Ok(())
    }

    // Counts a call, and records the address. Fails if the call is set to.
    fn ask(&mut self, place: &str, listeners: u32) -> Result<(), Failed>
        ensures fails { IsErr result ↔ Contains (failing_calls self.old) (next_call self.old) }
        ensures asks { Grows (asked_of self.old) (asked_of self.new) ((place.now, listeners) ∷ []) }
        ensures told { asked_of self.new
            ≡ with_place (asked_of self.old) (asked_room self.old) place.now listeners }
        ensures asked_room { asked_room self.old ≤ asked_room self.new + 1 }
        ensures called { CountsCall self.old self.new }
        ensures written_stays { self.new.written ≡ self.old.written }
        ensures listeners_stay { self.new.listeners ≡ self.old.listeners }
        ensures links_stay { self.new.links ≡ self.old.links }
        ensures open_stays { self.new.open_count ≡ self.old.open_count }
        ensures count { CountsFaults self.old.faults self.new.faults result }
    {
        self.calls = self.calls.saturating_add(1);
        if place.len() <= PLACE_ROOM {
            self.asked.keep(Asked::new(place, listeners));
        } else {
            self.asked.end();
        }
        if self.failing.contains(&self.calls) {
            return Err(counted(&mut self.faults));
        }
        Ok(())
    }

    /// Returns the addresses requested so far, if they are known.
    pub fn asked(&self) -> Option<&[Asked]>
        ensures { option_copied result ≡ asked_of self.now }
    {
        self.asked.items()
    }

    /// Returns the connections returned so far, if they are known.
    pub fn written(&self) -> Option<&[Returned]>
        ensures { option_copied result ≡ written_of self.now }
    {
        self.written.items()
    }
}

impl Faulted for MemNet {
    ghost faults = { λ net. net.faults };
}

impl Net for MemNet {
    type L = MemLink;

    type D = MemListener;

    ghost use Rattle.std.specs.Prelude.{Some};
    ghost use Rattle.outside_net.specs.MemNet.{listeners_of, links_of, listener_inputs, input_next, asked_of, asked_room, written_of, written_room, open_of, failing_calls, next_call, with_place, CountsCall};
    ghost use Rattle.outside_net.specs.MemListener.{coming_of, written_of as written_at, faults_of as faults_at};
    ghost use Rattle.outside_net.specs.MemLink.{source_in, sink_in, faults_of, returned_link};
    ghost use Rattle.outside_net.specs.MemSource.{left_of};
    ghost use Rattle.outside_net.specs.MemSink.{taken_of};
    ghost use Rattle.outside_net.specs.Kept.{keeps};

    ghost asked = { asked_of };

    ghost written = { written_of };

    ghost listener_links = { λ net. Some (listener_inputs net) };

    ghost next_input = { input_next };

    ghost open_count = { open_of };

    fn listen(&mut self, place: &str, number: u32) -> Result<Vec<MemListener>, NetError>
        ensures as_many { IfOk result (λ ds. length ds.items ≡ number) }
        ensures fresh { IfOk result (λ ds. All (λ d. faults_at d ≡ 0) ds.items) }
        ensures unwritten { IfOk result
            (λ ds. All (λ d. BeginsEmpty (written_of self.old) (written_at d)) ds.items) }
        ensures links { IfOk result (λ ds. OpensListeners (Some (listener_inputs self.old))
            (Some (listener_inputs self.new))
            (map (λ d. Some (coming_of d)) ds.items)) }
        ensures first { IfOk result (λ ds. listeners_of self.old
            ≡ ds.items ++ listeners_of self.new) }
        ensures failed { OnErr result (listeners_of self.new ≡ listeners_of self.old) }
        ensures fails { IsErrOf result NetError.Failed
            ↔ (Contains (failing_calls self.old) (next_call self.old) ⊎ (length (listeners_of self.old) < number) ⊎ (2 ^ 64 ≤ open_of self.old + number)) }
        ensures asks { Grows (asked_of self.old) (asked_of self.new) ((place.now, number) ∷ []) }
        ensures told { asked_of self.new
            ≡ with_place (asked_of self.old) (asked_room self.old) place.now number }
        ensures asked_room { asked_room self.old ≤ asked_room self.new + 1 }
        ensures called { CountsCall self.old self.new }
        ensures written_stays { written_of self.new ≡ written_of self.old }
        ensures written_room_stays { written_room self.new ≡ written_room self.old }
        ensures links_stay { links_of self.new ≡ links_of self.old }
        ensures opens { Opens (open_of self.old) (open_of self.new) number result }
        ensures count { CountsNetFaults self.old.faults self.new.faults result }
    {
        self.ask(place, number)?;
        if self.listeners.len() < number as usize {
            return Err(NetError::from(counted(&mut self.faults)));
        }
        let Some(open_count) = self.open_count.checked_add(u64::from(number)) else {
            return Err(NetError::from(counted(&mut self.faults)));
        };
        let listeners = take_first(&mut self.listeners, number as usize)?;
        self.open_count = open_count;
        Ok(listeners)
    }

    fn connect(&mut self, place: &str) -> Result<MemLink, Failed>
        ensures fresh { IfOk result (λ link. faults_of link ≡ 0) }
        ensures unwritten { IfOk result
            (λ link. BeginsEmpty (written_of self.old) (Some (taken_of (sink_in link)))) }
        ensures input { IfOk result (λ link. IfSome (input_next self.old)
            (λ input. Some (left_of (source_in link)) ≡ Some input)) }
        ensures first { IfOk result (λ link. links_of self.old ≡ link ∷ links_of self.new) }
        ensures failed { OnErr result (links_of self.new ≡ links_of self.old) }
        ensures fails { IsErr result
            ↔ (Contains (failing_calls self.old) (next_call self.old) ⊎ (links_of self.old ≡ []) ⊎ (2 ^ 64 ≤ open_of self.old + 1)) }
        ensures asks { Grows (asked_of self.old) (asked_of self.new) ((place.now, 0) ∷ []) }
        ensures told { asked_of self.new
            ≡ with_place (asked_of self.old) (asked_room self.old) place.now 0 }
        ensures asked_room { asked_room self.old ≤ asked_room self.new + 1 }
        ensures called { CountsCall self.old self.new }
        ensures written_stays { written_of self.new ≡ written_of self.old }
        ensures written_room_stays { written_room self.new ≡ written_room self.old }
        ensures links_stay { listeners_of self.new ≡ listeners_of self.old }
        ensures opens { Opens (open_of self.old) (open_of self.new) 1 result }
        ensures count { CountsFaults self.old.faults self.new.faults result }
    {
        self.ask(place, 0)?;
        let Some(open_count) = self.open_count.checked_add(1) else {
            return Err(counted(&mut self.faults));
        };
        match self.links.pop_front() {
            Some(link) => {
                self.open_count = open_count;
                Ok(link)
            }
            None => Err(counted(&mut self.faults)),
        }
    }

    fn close_listener(&mut self, listener: MemListener)
        ensures asked_stays { asked_of self.new ≡ asked_of self.old }
        ensures asked_room_stays { asked_room self.new ≡ asked_room self.old }
        ensures written_grows { GrowsByTold (written_of self.old) (written_of self.new)
            (written_at listener) }
        ensures told { written_of self.new
            ≡ option_and_then (keeps (written_of self.old) (written_room self.old)) (written_at listener) }
        ensures links_stay { listeners_of self.new ≡ listeners_of self.old }
        ensures next_stays { links_of self.new ≡ links_of self.old }
        ensures closes { Closes (open_of self.old) (open_of self.new) }
        ensures count { RisesWith self.old.faults self.new.faults (faults_at listener) }
    {
        self.open_count = self.open_count.saturating_sub(1);
        if listener.is_faulted() {
            counted(&mut self.faults);
        }
        self.written.keep_all(listener.into_written());
    }

    fn close(&mut self, link: MemLink)
        ensures asked_stays { asked_of self.new ≡ asked_of self.old }
        ensures asked_room_stays { asked_room self.new ≡ asked_room self.old }
        ensures written_grows { GrowsByTold (written_of self.old) (written_of self.new)
            (returned (Some (taken_of (sink_in link))) (faults_of link)) }
        ensures told { written_of self.new
            ≡ keeps (written_of self.old) (written_room self.old) (returned_link link ∷ []) }
        ensures written_room { written_room self.new ≡ written_room self.old - 1 }
        ensures links_stay { listeners_of self.new ≡ listeners_of self.old }
        ensures next_stays { links_of self.new ≡ links_of self.old }
        ensures closes { Closes (open_of self.old) (open_of self.new) }
        ensures count { RisesWith self.old.faults self.new.faults (faults_of link) }
    {
        self.open_count = self.open_count.saturating_sub(1);
        let back = link.returned();
        if back.faulted {
            counted(&mut self.faults);
        }
        self.written.keep(back);
    }
}

// Removes the first `number` listeners, and returns them.
fn take_first(
    listeners: &mut Vec<MemListener>,
    number: usize,
) -> Result<Vec<MemListener>, AllocError>
    requires { number ≤ vec_len listeners.old }
    ensures as_many { IfOk result (λ first. length first.items ≡ number) }
    ensures first { IfOk result (λ first. listeners.old.items
        ≡ first.items ++ listeners.new.items) }
    ensures links { IfOk result (λ first. OpensListeners (Some (map coming_of listeners.old.items))
        (Some (map coming_of listeners.new.items))
        (map (λ d. Some (coming_of d)) first.items)) }
    ensures new_rest { All is_new_listener listeners.old.items
        → All is_new_listener listeners.new.items }
    ensures new_first { All is_new_listener listeners.old.items
        → IfOk result (λ first. All is_new_listener first.items) }
    ensures err { OnErr result (listeners.new.items ≡ listeners.old.items) }
{
    let later = listeners.split_off(number)?;
    Ok(mem::replace(listeners, later))
}

//! The lists that are open at a place.

ghost use Rattle.std.specs.Prelude.{◌≡◌, [], ◌∷◌, not, drop, OnOk, OnErr, IfNone, IfSome};
ghost use Rattle.dmap_stream.specs.Walk.{closes, open_after, is_short, parent_of, fault_at, is_empty, first_of};

use crate::refusal::StreamError;
use dmap_tags::Code;
use std::alloc::{AllocError, Global};
use std::marker::Model;

/// A list whose head was read.
#[derive(Clone, Copy)]
pub struct Container {
    pub code: Code,
    /// The offset of its head.
    pub at: u64,
    /// The offset of its end. The end of a top tag that is never read whole may be past 64 bits.
    pub end: u128,
}

/// The lists around a place, which contracts see from the innermost to the outermost.
pub struct Containers {
    outermost_first: Vec<Container>,
}

impl Drop for Containers {
    fn drop(self) {
        let Containers { outermost_first: _ } = self;
    }
}

impl Model for Containers {
    ghost use Rattle.std.specs.Prelude.{List, reverse};
    ghost use Rattle.dmap_stream.specs.declared.containers.Container.{Container};

    ghost Value = { List Container };

    ghost view = { λ a. reverse a.outermost_first.items };
}

impl Containers {
    pub fn new(alloc: Global) -> Containers
        ensures { result ≡ [] }
    {
        Containers {
            outermost_first: Vec::new(alloc),
        }
    }

    pub fn push(&mut self, container: Container) -> Result<(), AllocError>
        ensures ok { OnOk result (self.new ≡ container ∷ self.old) }
        ensures err { OnErr result (self.new ≡ self.old) }
    {
        self.outermost_first.push(container)?;
        Ok(())
    }

    /// Removes the innermost list.
    pub fn leave(&mut self)
        ensures { self.new ≡ drop 1 self.old }
    {
        self.outermost_first.pop();
    }

    /// Returns the code of the innermost list.
    #[inline(always)]
    pub fn parent(&self) -> Option<Code>
        ensures { result ≡ parent_of self.now }
    {
        match self.outermost_first.last() {
            Some(container) => Some(container.code),
            None => None,
        }
    }

    /// Returns whether the innermost list ends at `at`.
    #[inline(always)]
    pub fn ends_at(&self, at: u64) -> bool
        ensures { result ≡ not (is_empty (closes at self.now)) }
    {
        match self.outermost_first.last() {
            Some(container) => container.end == at as u128,
            None => false,
        }
    }

    /// Removes the innermost list if it ends at `at`.
    #[inline(always)]
    pub fn pop_ended(&mut self, at: u64) -> Option<Container>
        ensures none { IfNone result ((closes at self.old ≡ []) × (self.new ≡ self.old)) }
        ensures some { IfSome result (λ c. (c.end ≡ at) × (self.old ≡ c ∷ self.new)) }
    {
        if self.ends_at(at) {
            self.outermost_first.pop()
        } else {
            None
        }
    }

    /// Returns whether all lists end at `at`.
    pub fn all_end_at(&self, at: u64) -> bool
        ensures { result ≡ is_empty (open_after at self.now) }
    {
        match self.open_at(at) {
            Some(_) => false,
            None => true,
        }
    }

    /// Returns whether 1 to 7 bytes are left in the innermost list, once the lists that end at `at` are closed.
    #[inline(always)]
    pub fn is_short(&self, at: u64) -> bool
        ensures { result ≡ is_short at (open_after at self.now) }
    {
        match self.outermost_first.last() {
            Some(innermost) if at as u128 + 8 <= innermost.end => false,
            _ => self.is_short_near_end(at),
        }
    }

    #[inline(never)]
    fn is_short_near_end(&self, at: u64) -> bool
        ensures { result ≡ is_short at (open_after at self.now) }
    {
        match self.open_at(at) {
            Some(container) => (at as u128) < container.end && container.end < at as u128 + 8,
            None => false,
        }
    }

    /// Returns the innermost list that does not end at `at`.
    fn open_at(&self, at: u64) -> Option<Container>
        ensures { result ≡ first_of (open_after at self.now) }
    {
        let mut depth = self.outermost_first.len();
        while depth > 0 {
            depth -= 1;
            let container = self.outermost_first[depth];
            if container.end != at as u128 {
                return Some(container);
            }
        }
        None
    }

    /// Returns the fault of a head with that code and length, if no list ends at it.
    #[inline(always)]
    pub fn fault(&self, top: u32, at: u64, code: Code, len: u32) -> Option<StreamError>
        ensures { result ≡ fault_at top at self.now code len }
    {
        let depth = self.outermost_first.len();
        if depth == 0 && len > top {
            return Some(StreamError::TooLarge { at });
        }
        if depth >= 32 {
            return Some(StreamError::TooDeep { at });
        }
        match self.outermost_first.last() {
            Some(container) if container.end < at as u128 + 8 + len as u128 => {
                Some(StreamError::Overrun { at, code })
            }
            _ => None,
        }
    }
}

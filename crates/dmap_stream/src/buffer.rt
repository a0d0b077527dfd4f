//! The bytes of a head or of a payload that have come so far.

ghost use Rattle.std.specs.Prelude.{◌≡◌, ◌≤◌, ◌-◌, [], ◌++◌, length, take, drop, min, IfOk, OnErr};
ghost use Rattle.dmap_tags.specs.Codes.{code_of};
ghost use Rattle.dmap_stream.specs.Walk.{is_empty, told_length};

use crate::head::head_of;
use dmap_tags::Code;
use std::alloc::{AllocError, Global};
use std::marker::Model;

/// Bytes that grow as they come, never by a length that was only announced.
pub struct Buffer {
    bytes: Vec<u8>,
}

impl Drop for Buffer {
    fn drop(self) {
        let Buffer { bytes: _ } = self;
    }
}

impl Model for Buffer {
    ghost use Rattle.std.specs.Prelude.{List, ℕ};

    ghost Value = { List ℕ };

    ghost view = { λ a. a.bytes.items };
}

impl Buffer {
    pub fn new(alloc: Global) -> Buffer
        ensures { result ≡ [] }
    {
        Buffer {
            bytes: Vec::new(alloc),
        }
    }

    pub fn len(&self) -> usize
        ensures { result ≡ length self.now }
    {
        self.bytes.len()
    }

    #[inline(always)]
    pub fn is_empty(&self) -> bool
        ensures { result ≡ is_empty self.now }
    {
        self.bytes.is_empty()
    }

    pub fn as_slice(&self) -> &[u8]
        ensures { result.now ≡ self.now }
    {
        self.bytes.as_slice()
    }

    pub fn clear(&mut self)
        ensures { self.new ≡ [] }
    {
        self.bytes.clear();
    }

    /// Takes bytes from the beginning of `piece` until there are `wanted` in all, and returns how many it took.
    pub fn fill(&mut self, wanted: usize, piece: &[u8]) -> Result<usize, AllocError>
        requires { length self.old ≤ wanted }
        ensures took { IfOk result
            (λ n. n ≡ min (wanted - length self.old) (length piece.now)) }
        ensures filled { IfOk result (λ n. self.new ≡ self.old ++ take n piece.now) }
        ensures err { OnErr result (self.new ≡ self.old) }
    {
        let missing = (wanted - self.bytes.len()).min(piece.len());
        let (front, _) = piece.split_at(missing);
        self.bytes.extend_from_slice(front)?;
        Ok(missing)
    }

    /// Returns the code and the payload's length in a head.
    pub fn head(&self) -> (Code, u32)
        requires { length self.now ≡ 8 }
        ensures code { result.0 ≡ code_of self.now }
        ensures len { result.1 ≡ told_length self.now }
    {
        head_of(self.bytes.as_slice())
    }
}

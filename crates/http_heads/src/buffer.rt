//! A growing buffer of bytes.

ghost use Rattle.std.specs.Prelude.{◌≡◌, [], ◌++◌, length, OnOk, OnErr};

use std::alloc::{AllocError, Global};
use std::marker::Model;
use std::mem;

/// Bytes that came. The buffer never grows by a length that was only announced.
pub struct Buffer {
    bytes: Vec<u8>,
}

impl Drop for Buffer {
    fn drop(self) {
        let Buffer { bytes: _ } = self;
    }
}

impl Model for Buffer {
    ghost use Rattle.std.specs.Prelude.{List, ℕ};

    ghost Value = { List ℕ };

    ghost view = { λ a. a.bytes.items };
}

impl Buffer {
    pub fn new(alloc: Global) -> Buffer
        ensures { result ≡ [] }
    {
        Buffer {
            bytes: Vec::new(alloc),
        }
    }

    pub fn len(&self) -> usize
        ensures { result ≡ length self.now }
    {
        self.bytes.len()
    }

    pub fn as_slice(&self) -> &[u8]
        ensures { result.now ≡ self.now }
    {
        self.bytes.as_slice()
    }

    pub fn clear(&mut self)
        ensures { self.new ≡ [] }
    {
        self.bytes.clear();
    }

    /// Appends `piece`. After an `Err` nothing has changed.
    pub fn extend(&mut self, piece: &[u8]) -> Result<(), AllocError>
        ensures ok { OnOk result (self.new ≡ self.old ++ piece.now) }
        ensures err { OnErr result (self.new ≡ self.old) }
    {
        self.bytes.extend_from_slice(piece)
    }

    /// Returns the bytes and leaves the buffer empty. Does not allocate.
    pub fn take_out(&mut self) -> Vec<u8>
        ensures out { result.items ≡ self.old }
        ensures emptied { self.new ≡ [] }
    {
        let empty = Vec::new(*self.bytes.allocator());
        mem::replace(&mut self.bytes, empty)
    }
}

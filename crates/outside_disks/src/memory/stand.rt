//! What a disk in memory has, and what a crash may leave of it.
ghost use Rattle.std.specs.Prelude.{◌≡◌, ◌≤◌, ◌<◌, ◌+◌, ◌-◌, ◌++◌, ◌∷◌, ◌^◌, [], ℕ, length, take, IfOk, if◌then◌else◌, vec_len, vec_capacity, true, false};
ghost use Rattle.outside_disks.specs.Disks.{overlaid};

use std::alloc::{AllocError, Global};

/// A change that is not safe from a crash yet.
#[derive(Clone, Copy, PartialEq, Eq)]
pub enum Change {
    /// Bytes were written.
    Write {
        /// The offset of the first.
        at: u64,
        /// The number of bytes.
        len: usize,
    },
    /// The bytes past a length were truncated.
    Cut {
        /// That length.
        len: u64,
    },
}

/// The bytes, those at the last sync, and the changes since, in capacity that was allocated beforehand.
#[derive(Drop)]
pub(crate) struct Stand {
    pub(crate) bytes: Vec<u8>,
    pub(crate) synced: Vec<u8>,
    pub(crate) pending: Vec<Change>,
    pub(crate) room: usize,
    ghost fits: { vec_len bytes ≤ room },
    ghost fitted: { vec_len synced ≤ room },
    ghost has_room: { room ≤ vec_capacity bytes },
    ghost has_synced_room: { room ≤ vec_capacity synced },
    ghost is_short: { room < 2 ^ 63 },
    ghost bytes_are_short: { length bytes.items < 2 ^ 63 },
    ghost synced_are_short: { length synced.items < 2 ^ 63 },
}

// Puts the piece at offset `at`: over the old bytes there, and past the end.
fn put(bytes: &mut Vec<u8>, at: usize, piece: &[u8])
    requires inside { at ≤ length bytes.old.items }
    requires room { at + length piece.now ≤ vec_capacity bytes.old }
    ensures put { bytes.new.items ≡ overlaid bytes.old.items at piece.now }
    ensures room_stays { vec_capacity bytes.old ≤ vec_capacity bytes.new }
{
    let over = piece.len().min(bytes.len() - at);
    let (front, rest) = piece.split_at(over);
    bytes[at..at + over].copy_from_slice(front);
    bytes.extend_from_slice(rest).unwrap();
}

impl Stand {
    ghost use Rattle.outside_disks.specs.Disks.{ReadsFrom, Torn, CutShort, Follows, NoMore};
    ghost use Rattle.outside_disks.specs.MemDisk.{IsImage, bytes_in, room_in, pending_room};

    /// Returns a copy of the bytes, all safe, with capacity for `room` bytes and `changes` changes.
    pub(crate) fn new(
        alloc: Global,
        start: &[u8],
        room: usize,
        changes: usize,
    ) -> Result<Stand, AllocError>
        ensures bytes { IfOk result (λ stand. bytes_in stand ≡ start.now) }
        ensures safe { IfOk result (λ stand. (image : _) → IsImage stand image
            → image ≡ start.now) }
        ensures changes { IfOk result (λ stand. pending_room stand ≡ changes) }
    {
        let room = room.max(start.len());
        let mut bytes = Vec::with_capacity(alloc, room)?;
        bytes.extend_from_slice(start)?;
        let mut synced = Vec::with_capacity(alloc, room)?;
        synced.extend_from_slice(start)?;
        let pending = Vec::with_capacity(alloc, changes)?;
        Ok(Stand {
            bytes,
            synced,
            pending,
            room,
        })
    }

    /// Replaces the bytes by `start`, all safe, if the capacity is enough.
    pub(crate) fn restart(&mut self, start: &[u8]) -> bool
        ensures bytes { result ≡ true → bytes_in self.new ≡ start.now }
        ensures safe { result ≡ true → (image : _) → IsImage self.new image → image ≡ start.now }
    {
        if start.len() > self.room {
            return false;
        }
        self.bytes.clear();
        self.bytes.extend_from_slice(start).unwrap();
        self.sync();
        true
    }

    /// Returns whether there is capacity for `len` bytes at offset `at`, and for a change.
    pub(crate) fn has_room_for(&self, at: u64, len: usize) -> bool
        ensures room { result ≡ true → at + len ≤ room_in self.now }
        ensures changes { result ≡ true → 0 < pending_room self.now }
    {
        at as usize <= self.room
            && len <= self.room - at as usize
            && self.pending.len() < self.pending.capacity()
    }

    /// Reads into the start of `room`.
    pub(crate) fn read(&self, at: u64, room: &mut [u8]) -> usize
        requires some { 0 < length room.old }
        ensures within { result ≤ length room.new }
        ensures reads { ReadsFrom (bytes_in self.now) at result room.new }
    {
        let start = (at as usize).min(self.bytes.len());
        let (_, rest) = self.bytes.as_slice().split_at(start);
        let n = rest.len().min(room.len());
        room[..n].copy_from_slice(&rest[..n]);
        n
    }

    /// Writes; if not `is_done`, begins to write and fails.
    pub(crate) fn write(&mut self, at: u64, piece: &[u8], is_done: bool)
        requires inside { at ≤ length (bytes_in self.old) }
        requires room { at + length piece.now ≤ room_in self.old }
        requires changes { 0 < pending_room self.old }
        ensures bytes { bytes_in self.new
            ≡ (if is_done then overlaid (bytes_in self.old) at piece.now else bytes_in self.old) }
        ensures torn { Follows (Torn at (length piece.now)) (IsImage self.old) (IsImage self.new) }
    {
        self.pending.push_reserved(Change::Write {
            at,
            len: piece.len(),
        });
        if is_done {
            put(&mut self.bytes, at as usize, piece);
        }
    }

    /// Truncates; if not `is_done`, begins to truncate and fails.
    pub(crate) fn cut(&mut self, len: u64, is_done: bool)
        requires inside { len ≤ length (bytes_in self.old) }
        requires changes { 0 < pending_room self.old }
        ensures bytes { bytes_in self.new
            ≡ (if is_done then take len (bytes_in self.old) else bytes_in self.old) }
        ensures torn { Follows (CutShort len) (IsImage self.old) (IsImage self.new) }
    {
        self.pending.push_reserved(Change::Cut { len });
        if is_done {
            self.bytes.truncate(len as usize);
        }
    }

    /// Makes all changes safe.
    pub(crate) fn sync(&mut self)
        ensures bytes { bytes_in self.new ≡ bytes_in self.old }
        ensures safe { (image : _) → IsImage self.new image → image ≡ bytes_in self.old }
    {
        self.synced.clear();
        self.synced.extend_from_slice(&self.bytes).unwrap();
        self.pending.clear();
    }
}

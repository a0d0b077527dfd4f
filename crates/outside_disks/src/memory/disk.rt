//! A disk in memory that records its calls.
ghost use Rattle.std.specs.Prelude.{◌≡◌, ◌↔◌, ◌≤◌, ◌<◌, ◌+◌, ◌-◌, ◌++◌, ◌∷◌, ◌^◌, [], ℕ, Some, length, take, drop, IfOk, IsOk, IsErr, OnErr, OnOk, Contains, is_ok, map, nat_lt, true, vec_len, vec_capacity};
ghost use Rattle.std.specs.Io.{ReadsAtMost};
ghost use Rattle.outside_disks.specs.Counts.{CountsFaults};
ghost use Rattle.outside_disks.specs.Disks.{overlaid, ReadsFrom, Torn, CutShort, Follows, NoMore};

use crate::disk::Disk;
use crate::faulted::{Failed, Faulted, counted};
use crate::memory::closed::ClosedFiles;
use crate::memory::stand::Stand;
use std::alloc::{AllocError, Global};
use std::snapshot::Snapshot;

/// The most bytes of a name of a file in memory.
pub(crate) const NAME_ROOM: usize = 255;

/// An operation of a disk.
#[derive(Clone, Copy, PartialEq, Eq)]
pub enum DiskOp {
    Len,
    ReadAt,
    WriteAt,
    Cut,
    Sync,
}

/// A call that was made on a disk in memory.
#[derive(Drop)]
pub struct DiskCall {
    pub op: DiskOp,
    /// The offset of a read or a write, or the length of a truncation.
    pub at: u64,
    /// The number of bytes of the buffer or the piece.
    pub len: usize,
    /// Whether it returned `Ok`.
    pub done: bool,
    before: Snapshot<Stand>,
}

/// Bytes in memory, with a record of all calls. Both have capacity that is allocated at the start. A call that lacks
/// capacity does nothing and counts an error. What files need to keep the closed disk is allocated at the start too.
///
/// Some of its calls may be set to fail; the first recorded call has the number 1. A write or a truncation that is
/// set to fail leaves the bytes, but a crash may then leave it done or half done.
pub struct MemDisk {
    name: Vec<u8>,
    stand: Stand,
    calls: Vec<DiskCall>,
    pieces: Vec<u8>,
    failing: Vec<u64>,
    faults: u64,
    // The memory that files need to keep it once it is closed.
    closed_room: Box<ClosedFiles>,
    ghost has_name_room: { 255 ≤ vec_capacity name },
}

impl Drop for MemDisk {
    fn drop(self) {
        let MemDisk {
            name: _,
            stand: _,
            calls: _,
            pieces: _,
            failing: _,
            faults: _,
            closed_room: _,
        } = self;
    }
}

impl MemDisk {
    ghost use Rattle.outside_disks.specs.MemDisk.{IsImage};
    ghost use Rattle.outside_disks.specs.Closed.{entries_of};
    ghost use Rattle.outside_disks.specs.Calls.{AddsCall, calls_of, failing_calls, bytes_of, name_of, images_of, call_seen};

    /// Returns a disk with a copy of the bytes, all safe from a crash. It has capacity for at least `room` bytes, for
    /// `calls` calls, and for `pieces` bytes of what is written. The calls with the numbers `failing` fail.
    ///
    /// # Errors
    ///
    /// Returns `AllocError` if an allocation fails.
    pub fn new(
        alloc: Global,
        start: &[u8],
        room: usize,
        calls: usize,
        pieces: usize,
        failing: &[u64],
    ) -> Result<MemDisk, AllocError>
        ensures bytes { IfOk result (λ disk. bytes_of disk ≡ start.now) }
        ensures safe { IfOk result (λ disk. (image : _) → images_of disk image
            → image ≡ start.now) }
        ensures calls { IfOk result (λ disk. calls_of disk ≡ []) }
        ensures failing_calls { IfOk result (λ disk. failing_calls disk ≡ failing.now) }
        ensures name { IfOk result (λ disk. name_of disk ≡ []) }
        ensures faults { IfOk result (λ disk. ⟦<MemDisk as Faulted>⟧.faults disk ≡ 0) }
    {
        let mut numbers = Vec::with_capacity(alloc, failing.len())?;
        numbers.extend_from_slice(failing)?;
        Ok(MemDisk {
            name: Vec::with_capacity(alloc, NAME_ROOM)?,
            stand: Stand::new(alloc, start, room, calls)?,
            calls: Vec::with_capacity(alloc, calls)?,
            pieces: Vec::with_capacity(alloc, pieces)?,
            failing: numbers,
            faults: 0,
            closed_room: Box::new(alloc, ClosedFiles::Empty)?,
        })
    }

    /// Returns the bytes that reads return.
    pub fn bytes(&self) -> &[u8]
        ensures { result.now ≡ bytes_of self.now }
    {
        self.stand.bytes.as_slice()
    }

    /// Returns the calls so far.
    pub fn calls(&self) -> &[DiskCall]
        ensures { map call_seen result.now ≡ calls_of self.now }
    {
        self.calls.as_slice()
    }

    /// Returns the bytes of all writes so far, one after the other.
    pub fn pieces(&self) -> &[u8] {
        self.pieces.as_slice()
    }

    // Takes the name and the bytes, all safe, if the capacity is enough, and resets the error counter.
    pub(crate) fn begin(&mut self, name: &str, bytes: &[u8]) -> bool
        ensures name { result ≡ true → name_of self.new ≡ name.now }
        ensures bytes { result ≡ true → bytes_of self.new ≡ bytes.now }
        ensures safe { result ≡ true → (image : _) → images_of self.new image → image ≡ bytes.now }
        ensures calls_stay { self.new.calls ≡ self.old.calls }
        ensures fresh { result ≡ true → self.new.faults ≡ 0 }
    {
        if name.len() > NAME_ROOM || !self.stand.restart(bytes) {
            return false;
        }
        self.name.clear();
        self.name.extend_from_slice(name.as_bytes()).unwrap();
        self.faults = 0;
        true
    }

    // Closes the disk, and moves its name and its bytes to the closed files.
    pub(crate) fn close(self, closed: &mut ClosedFiles)
        ensures { entries_of closed.new ≡ (name_of self, bytes_of self) ∷ entries_of closed.old }
    {
        let MemDisk {
            name,
            stand,
            calls: _,
            pieces: _,
            failing: _,
            faults: _,
            closed_room,
        } = self;
        let Stand { bytes, .. } = stand;
        closed.push(name, bytes, closed_room);
    }

    pub(crate) fn is_faulted(&self) -> bool
        ensures { result ≡ nat_lt 0 self.now.faults }
    {
        self.faults > 0
    }

    // Returns whether there is capacity for one more call, which writes `len` bytes.
    fn has_record(&self, len: usize) -> bool
        ensures calls { result ≡ true → vec_len self.now.calls < vec_capacity self.now.calls }
        ensures pieces { result ≡ true
            → vec_len self.now.pieces + len ≤ vec_capacity self.now.pieces }
    {
        self.calls.len() < self.calls.capacity()
            && len <= self.pieces.capacity() - self.pieces.len()
    }

    // Records a call, and counts an error if it is set to fail.
    fn record(&mut self, op: DiskOp, at: u64, len: usize, piece: &[u8]) -> Result<(), Failed>
        requires calls { vec_len self.old.calls < vec_capacity self.old.calls }
        requires pieces { vec_len self.old.pieces + length piece.now
            ≤ vec_capacity self.old.pieces }
        ensures stand_stays { self.new.stand ≡ self.old.stand }
        ensures name_stays { self.new.name ≡ self.old.name }
        ensures adds { AddsCall self.old.stand self.old.calls.items self.new.calls.items }
        ensures recorded { calls_of self.new
            ≡ calls_of self.old ++ (op, at, len, is_ok result) ∷ [] }
        ensures fails { IsErr result
            ↔ Contains (failing_calls self.old) (length (calls_of self.old) + 1) }
        ensures count { CountsFaults self.old.faults self.new.faults result }
    {
        let number = self.calls.len() as u64 + 1;
        let fails = self.failing.contains(&number);
        self.pieces.extend_from_slice(piece).unwrap();
        self.calls.push_reserved(DiskCall {
            op,
            at,
            len,
            done: !fails,
            before: Snapshot::of(&self.stand),
        });
        if fails {
            return Err(counted(&mut self.faults));
        }
        Ok(())
    }
}

impl Faulted for MemDisk {
    ghost faults = { λ disk. disk.faults };
}

impl Disk for MemDisk {
    ghost use Rattle.outside_disks.specs.MemDisk.{IsImage};
    ghost use Rattle.outside_disks.specs.Calls.{StoodSince, Calls, PassesTime, bytes_of, name_of, images_of};
    ghost use Rattle.outside_disks.specs.declared.memory.disk.DiskOp.TheVariants.{Len, ReadAt, WriteAt, Cut, Sync};
    ghost use Rattle.outside_disks.specs.Times.{told_is_image, image_is_short, stood_alone};
    ghost use Rattle.std.proofs.Common.{inl};

    ghost bytes = { λ disk. Some disk.stand.bytes.items };

    ghost opened_as = { λ disk. Some disk.name.items };

    ghost images = { λ disk. IsImage disk.stand };

    ghost clock = { λ disk. length disk.calls.items };

    ghost since = { λ disk. StoodSince disk.stand disk.calls.items };

    fn len(&mut self) -> Result<u64, Failed>
        ensures length { IfOk result (λ n. n ≡ length (bytes_of self.old)) }
        ensures short { IfOk result (λ n. n < 2 ^ 63) }
        ensures bytes_stay { bytes_of self.new ≡ bytes_of self.old }
        ensures images_stay { NoMore (images_of self.old) (images_of self.new) }
        ensures name_stays { name_of self.new ≡ name_of self.old }
        ensures time { PassesTime self.old self.new }
        ensures calls { Calls self.old self.new Len 0 0 result }
        ensures count { CountsFaults self.old.faults self.new.faults result }
    {
        if !self.has_record(0) {
            return Err(counted(&mut self.faults));
        }
        self.record(DiskOp::Len, 0, 0, &[])?;
        Ok(self.stand.bytes.len() as u64)
    }

    fn read_at(&mut self, at: u64, room: &mut [u8]) -> Result<usize, Failed>
        requires some { 0 < length room.old }
        ensures within { ReadsAtMost result room.new }
        ensures reads { IfOk result (λ n. ReadsFrom (bytes_of self.old) at n room.new) }
        ensures bytes_stay { bytes_of self.new ≡ bytes_of self.old }
        ensures images_stay { NoMore (images_of self.old) (images_of self.new) }
        ensures name_stays { name_of self.new ≡ name_of self.old }
        ensures time { PassesTime self.old self.new }
        ensures calls { Calls self.old self.new ReadAt at (length room.old) result }
        ensures count { CountsFaults self.old.faults self.new.faults result }
    {
        if !self.has_record(0) {
            return Err(counted(&mut self.faults));
        }
        self.record(DiskOp::ReadAt, at, room.len(), &[])?;
        Ok(self.stand.read(at, room))
    }

    fn write_at(&mut self, at: u64, piece: &[u8]) -> Result<(), Failed>
        requires some { 0 < length piece.now }
        requires inside { at ≤ length (bytes_of self.old) }
        ensures written { OnOk result
            (bytes_of self.new ≡ overlaid (bytes_of self.old) at piece.now) }
        ensures left { OnErr result (bytes_of self.new ≡ bytes_of self.old) }
        ensures torn { Follows (Torn at (length piece.now)) (images_of self.old)
            (images_of self.new) }
        ensures far { 2 ^ 63 ≤ at + length piece.now → IsErr result }
        ensures undone { 2 ^ 63 ≤ at + length piece.now
            → (bytes_of self.new ≡ bytes_of self.old) × NoMore (images_of self.old) (images_of self.new) }
        ensures name_stays { name_of self.new ≡ name_of self.old }
        ensures time { PassesTime self.old self.new }
        ensures calls { Calls self.old self.new WriteAt at (length piece.now) result }
        ensures count { CountsFaults self.old.faults self.new.faults result }
    {
        if !self.has_record(piece.len()) || !self.stand.has_room_for(at, piece.len()) {
            return Err(counted(&mut self.faults));
        }
        let done = self.record(DiskOp::WriteAt, at, piece.len(), piece);
        self.stand.write(at, piece, done.is_ok());
        done
    }

    fn cut(&mut self, len: u64) -> Result<(), Failed>
        requires inside { len ≤ length (bytes_of self.old) }
        ensures shorter { OnOk result (bytes_of self.new ≡ take len (bytes_of self.old)) }
        ensures left { OnErr result (bytes_of self.new ≡ bytes_of self.old) }
        ensures torn { Follows (CutShort len) (images_of self.old) (images_of self.new) }
        ensures name_stays { name_of self.new ≡ name_of self.old }
        ensures time { PassesTime self.old self.new }
        ensures calls { Calls self.old self.new Cut len 0 result }
        ensures count { CountsFaults self.old.faults self.new.faults result }
    {
        if !self.has_record(0) || !self.stand.has_room_for(0, 0) {
            return Err(counted(&mut self.faults));
        }
        let done = self.record(DiskOp::Cut, len, 0, &[]);
        self.stand.cut(len, done.is_ok());
        done
    }

    fn sync(&mut self) -> Result<(), Failed>
        ensures safe { OnOk result ((image : _) → images_of self.new image
            → image ≡ bytes_of self.new) }
        ensures bytes_stay { bytes_of self.new ≡ bytes_of self.old }
        ensures images_stay { NoMore (images_of self.old) (images_of self.new) }
        ensures name_stays { name_of self.new ≡ name_of self.old }
        ensures time { PassesTime self.old self.new }
        ensures calls { Calls self.old self.new Sync 0 0 result }
        ensures count { CountsFaults self.old.faults self.new.faults result }
    {
        if !self.has_record(0) {
            return Err(counted(&mut self.faults));
        }
        self.record(DiskOp::Sync, 0, 0, &[])?;
        self.stand.sync();
        Ok(())
    }

    ghost bytes_count = { λ disk told is. told_is_image disk.stand told is };

    ghost images_are_short = { λ disk image is. image_is_short disk.stand image is };

    ghost now_counts = { λ disk time image within is. inl is };

    ghost now_alone = { λ disk image is. stood_alone disk.stand disk.calls.items image is };
}

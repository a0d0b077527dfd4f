//! Reads a disk, frame by frame.
ghost use Rattle.std.specs.Prelude.{◌≡◌, ◌≢◌, ℕ, ◌+◌, ◌^◌, ◌<◌, ◌≤◌, [], length, drop, Err, IfOk, IfSome, option_map};
ghost use Rattle.std.specs.Int.{w32, from_be_bytes, to_be_bytes};
ghost use Rattle.item_model.specs.Valid.{AreValid};
ghost use Rattle.outside_disks.specs.Counts.{CountsFaults};
ghost use Rattle.edit_file.specs.Moments.{OnlyReads};
ghost use Rattle.edit_file.specs.Opening.{CountsOpening, LeavesRefused};
ghost use Rattle.edit_file.specs.Reading.{FillsFrom, IsPayload, IsBatchIn, IsFound, IsUsable, IsWithin};

use crate::refusal::FileError;
use item_model::Batch;
use outside_disks::{Disk, Failed};
use records_import::{RecordError, read_batch};
use std::alloc::{AllocError, Global};

/// What is at an offset of a file.
#[derive(Drop)]
pub(crate) enum Found {
    /// A batch, whose frame has `size` bytes.
    Frame { batch: Batch, size: u64 },
    /// A closing byte.
    Closed,
    /// Neither.
    Broken,
}

/// Reads from offset `at` until `room` is full or the bytes end, and returns the number of bytes read.
pub(crate) fn read_fully<D: Disk>(disk: &mut D, at: u64, room: &mut [u8]) -> Result<usize, Failed>
    requires near { at < 2 ^ 63 }
    ensures within { IfOk result (λ n. n ≤ length room.new) }
    ensures reads { IfOk result (λ n. IfSome (D.bytes disk.old) (λ b. FillsFrom b at n room.new)) }
    ensures size { length room.new ≡ length room.old }
    ensures stays { OnlyReads D.Disk.own disk.old disk.new result }
    ensures count { CountsFaults (D.faults disk.old) (D.faults disk.new) result }
{
    let mut done = 0;
    while done < room.len() {
        let (_, rest) = room.split_at_mut(done);
        let n = disk.read_at(at + done as u64, rest)?;
        if n == 0 {
            return Ok(done);
        }
        done += n;
    }
    Ok(done)
}

/// Reads what is at offset `at` of a file of `len` bytes. Allocates for a frame only if the frame can end within
/// these.
pub(crate) fn read_frame<D: Disk>(
    alloc: Global,
    disk: &mut D,
    at: u64,
    len: u64,
) -> Result<Found, FileError>
    requires near { at < 2 ^ 63 }
    requires short { len < 2 ^ 63 }
    ensures exact { IfOk result (λ found. IfSome (D.bytes disk.old)
        (λ b. length b ≡ len → IsFound (drop at b) found)) }
    ensures within { IfOk result (λ found. IsWithin at len found) }
    ensures usable { IfOk result IsUsable }
    ensures whole { (at' : ℕ) → result ≡ Err (FileError.NotEditFile at') → ⊥ }
    ensures unchanged { LeavesRefused D.Disk.own disk.old disk.new result }
    ensures stays { OnlyReads D.Disk.own disk.old disk.new result }
    ensures count { CountsOpening (D.faults disk.old) (D.faults disk.new) result }
{
    let mut head = [0; 5];
    let n = read_fully(disk, at, &mut head)?;
    if n == 0 {
        return Ok(Found::Broken);
    }
    if head[0] != 1 {
        return Ok(Found::Closed);
    }
    if n < 5 {
        return Ok(Found::Broken);
    }
    let count = count_in(&head);
    let Some(left) = len.checked_sub(at + 5) else {
        return Ok(Found::Broken);
    };
    if count as u64 > left {
        return Ok(Found::Broken);
    }
    let Some(payload) = read_payload(alloc, disk, at + 5, count)? else {
        return Ok(Found::Broken);
    };
    match batch_in(alloc, payload.as_slice())? {
        Some(batch) => Ok(Found::Frame {
            batch,
            size: count as u64 + 5,
        }),
        None => Ok(Found::Broken),
    }
}

// Returns the length of the payload, from the first five bytes of a frame.
fn count_in(head: &[u8; 5]) -> u32
    ensures value { result ≡ from_be_bytes w32 (drop 1 head.now) }
    ensures spelled { to_be_bytes w32 result ≡ drop 1 head.now }
{
    let [_, a, b, c, d] = *head;
    u32::from_be_bytes([a, b, c, d])
}

// Returns the `count` bytes from offset `at`, if the disk has them.
fn read_payload<D: Disk>(
    alloc: Global,
    disk: &mut D,
    at: u64,
    count: u32,
) -> Result<Option<Vec<u8>>, FileError>
    requires near { at < 2 ^ 63 }
    ensures exact { IfOk result (λ o. IfSome (D.bytes disk.old)
        (λ b. IsPayload b at count (option_map (λ v. v.items) o))) }
    ensures whole { (at' : ℕ) → result ≡ Err (FileError.NotEditFile at') → ⊥ }
    ensures unchanged { LeavesRefused D.Disk.own disk.old disk.new result }
    ensures stays { OnlyReads D.Disk.own disk.old disk.new result }
    ensures count { CountsOpening (D.faults disk.old) (D.faults disk.new) result }
{
    let mut payload = vec![in alloc; 0; count as usize]?;
    let n = read_fully(disk, at, payload.as_mut_slice())?;
    if n < count as usize {
        return Ok(None);
    }
    Ok(Some(payload))
}

// Returns the batch that the payload reads as, if it is one with an edit.
#[tactic(auto, using(records_import::proofs::Once::batch_same, records_import::proofs::Once::batch_once))]
fn batch_in(alloc: Global, payload: &[u8]) -> Result<Option<Batch>, AllocError>
    ensures read { IfOk result (λ o. IsBatchIn payload.now o) }
    ensures filled { IfOk result (λ o. IfSome o (λ batch. batch ≢ [])) }
    ensures valid { IfOk result (λ o. IfSome o AreValid) }
{
    match read_batch(alloc, payload) {
        Ok(batch) if batch.edits.as_slice().is_empty() => Ok(None),
        Ok(batch) => Ok(Some(batch)),
        Err(RecordError::Memory) => Err(AllocError),
        Err(_refused) => Ok(None),
    }
}

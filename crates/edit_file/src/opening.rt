//! Opens a file: reads its batches, makes a file that was not finished, and truncates it after the closing byte.
ghost use Rattle.std.specs.Prelude.{◌≡◌, ◌≢◌, ℕ, ◌^◌, ◌<◌, All, List, [], ◌∷◌, ◌++◌, length, false, Some, Err, IfOk, IfErr, IfSome, MatchBool, is_some};
ghost use Rattle.item_model.specs.declared.changes.Edit.{Edit};
ghost use Rattle.item_model.specs.Valid.{AreValid};
ghost use Rattle.outside_disks.specs.Counts.{CountsFaults};
ghost use Rattle.edit_file.specs.Files.{AtRest, HasBatches, is_broken};
ghost use Rattle.edit_file.specs.Moments.{Holds, KeepsName, LeavesOnly, OnlyReads};
ghost use Rattle.edit_file.specs.Opening.{ClosesAt, CountsOpening, CountsOpenError, HasHead, IsSameDisk, LeavesRefused, disk_after};
ghost use Rattle.edit_file.specs.Standing.{opened, signature, BreaksAt, FileStands, IsNoFrame, IsUnmade};

use crate::file::EditFile;
use crate::making::make;
use crate::reading::{Found, read_frame, read_fully};
use crate::refusal::FileError;
use crate::safely::cut_safely;
use item_model::Batch;
use outside_disks::{Disk, Failed};
use std::alloc::Global;

impl<D: Disk + Drop> EditFile<D> {
    /// Opens the file on `disk`, and returns it with its batches. Makes a file that was not finished, and truncates a
    /// finished one after the closing byte.
    ///
    /// # Errors
    ///
    /// Returns the disk, and why the file was not opened: `NotEditFile` if the bytes represent no list of batches,
    /// with the offset where that shows; `Failed` if the disk failed; `Memory` if an allocation failed.
    pub fn open(alloc: Global, disk: D) -> Result<(EditFile<D>, Vec<Batch>), (FileError, D)>
        ensures stands { IfOk result (λ r. IfSome (D.bytes disk) (λ b. FileStands b r.1.items)) }
        ensures keeps { IfOk result (λ r. HasBatches D.Disk.own r.0 r.1.items) }
        ensures filled { IfOk result (λ r. All (λ batch. batch ≢ []) r.1.items) }
        ensures valid { IfOk result (λ r. All AreValid r.1.items) }
        ensures sound { IfOk result (λ r. is_broken D.Disk.own r.0 ≡ false) }
        ensures breaks { (at : ℕ) → IfErr result (λ e. e.0 ≡ FileError.NotEditFile at
            → IfSome (D.bytes disk) (λ b. BreaksAt b at)) }
        ensures unchanged { IfErr result (λ e. e.0 ≢ FileError.Failed
            → IsSameDisk D.Disk.own disk e.1) }
        ensures crash { (bytes : List ℕ) (batches : List (List Edit)) → FileStands bytes batches
            → Holds D.Disk.own disk bytes
            → LeavesOnly D.Disk.own disk (disk_after D.Disk.own result)
            (λ image. FileStands image batches) }
        ensures told_stays { is_some (D.bytes (disk_after D.Disk.own result))
            ≡ is_some (D.bytes disk) }
        ensures name_stays { D.opened_as (disk_after D.Disk.own result) ≡ D.opened_as disk }
        ensures count { CountsOpenError (D.faults disk) (D.faults (disk_after D.Disk.own result))
            result }
    {
        let mut disk = disk;
        match settle(alloc, &mut disk) {
            Ok((closing, batches)) => Ok((
                EditFile {
                    disk,
                    closing,
                    is_broken: false,
                },
                batches,
            )),
            Err(error) => Err((error, disk)),
        }
    }
}

// Brings the file to rest, and returns the offset of its closing byte and its batches.
fn settle<D: Disk>(alloc: Global, disk: &mut D) -> Result<(u64, Vec<Batch>), FileError>
    ensures stands { (b : List ℕ) → D.bytes disk.old ≡ Some b
        → IfOk result (λ r. FileStands b r.1.items) }
    ensures rests { (b : List ℕ) → D.bytes disk.old ≡ Some b
        → IfOk result (λ r. (c : List ℕ) × AtRest c r.0 r.1.items × Holds D.Disk.own disk.new c) }
    ensures near { IfOk result (λ r. r.0 < 2 ^ 63) }
    ensures filled { IfOk result (λ r. All (λ batch. batch ≢ []) r.1.items) }
    ensures valid { IfOk result (λ r. All AreValid r.1.items) }
    ensures breaks { (b : List ℕ) (at : ℕ) → D.bytes disk.old ≡ Some b
        → result ≡ Err (FileError.NotEditFile at) → BreaksAt b at }
    ensures unchanged { LeavesRefused D.Disk.own disk.old disk.new result }
    ensures crash { (b : List ℕ) (batches : List (List Edit)) → FileStands b batches
        → Holds D.Disk.own disk.old b
        → LeavesOnly D.Disk.own disk.old disk.new (λ image. FileStands image batches) }
    ensures named { KeepsName D.Disk.own disk.old disk.new }
    ensures count { CountsOpening (D.faults disk.old) (D.faults disk.new) result }
{
    let len = measure(disk)?;
    if is_unmade(disk, len)? {
        make(disk, len)?;
        return Ok((9, Vec::new(alloc)));
    }
    read_made(alloc, disk, len)
}

// Makes safe what the disk has, and returns its length.
fn measure<D: Disk>(disk: &mut D) -> Result<u64, Failed>
    ensures held { (b : List ℕ) → D.bytes disk.old ≡ Some b
        → IfOk result (λ len. (length b ≡ len) × Holds D.Disk.own disk.new b) }
    ensures known { IfOk result (λ len. IfSome (D.bytes disk.new) (λ b. length b ≡ len)) }
    ensures short { IfOk result (λ len. len < 2 ^ 63) }
    ensures stays { OnlyReads D.Disk.own disk.old disk.new result }
    ensures count { CountsFaults (D.faults disk.old) (D.faults disk.new) result }
{
    disk.sync()?;
    disk.len()
}

// Returns whether a file of `len` bytes was not finished.
fn is_unmade<D: Disk>(disk: &mut D, len: u64) -> Result<bool, Failed>
    ensures exact { (b : List ℕ) → length b ≡ len → D.bytes disk.old ≡ Some b
        → IfOk result (λ it. MatchBool it (IsUnmade b) (IsUnmade b → ⊥)) }
    ensures stays { OnlyReads D.Disk.own disk.old disk.new result }
    ensures count { CountsFaults (D.faults disk.old) (D.faults disk.new) result }
{
    if len < 2 {
        return Ok(true);
    }
    if len > 10 {
        return Ok(false);
    }
    let mut first = [0; 1];
    let _one = read_fully(disk, 0, &mut first)?;
    if first[0] == 1 {
        return Ok(false);
    }
    Ok(true)
}

// Returns whether the file begins as a finished one does.
fn has_head<D: Disk>(disk: &mut D) -> Result<bool, Failed>
    ensures exact { (b : List ℕ) → D.bytes disk.old ≡ Some b → IfOk result (λ it. HasHead b it) }
    ensures stays { OnlyReads D.Disk.own disk.old disk.new result }
    ensures count { CountsFaults (D.faults disk.old) (D.faults disk.new) result }
{
    let mut head = [0; 9];
    let n = read_fully(disk, 0, &mut head)?;
    if n != 9 {
        return Ok(false);
    }
    if head.as_slice() != b"\x01DAAPEDIT".as_slice() {
        return Ok(false);
    }
    Ok(true)
}

// Reads the batches of a finished file, and truncates it after the closing byte.
fn read_made<D: Disk>(alloc: Global, disk: &mut D, len: u64) -> Result<(u64, Vec<Batch>), FileError>
    requires short { len < 2 ^ 63 }
    requires known { IfSome (D.bytes disk.old) (λ b. length b ≡ len) }
    ensures stands { (b : List ℕ) → Holds D.Disk.own disk.old b
        → IfOk result (λ r. FileStands b r.1.items) }
    ensures rests { (b : List ℕ) → Holds D.Disk.own disk.old b
        → IfOk result (λ r. (c : List ℕ) × AtRest c r.0 r.1.items × Holds D.Disk.own disk.new c) }
    ensures near { IfOk result (λ r. r.0 < 2 ^ 63) }
    ensures filled { IfOk result (λ r. All (λ batch. batch ≢ []) r.1.items) }
    ensures valid { IfOk result (λ r. All AreValid r.1.items) }
    ensures breaks { (b : List ℕ) (at : ℕ) → (IsUnmade b → ⊥) → Holds D.Disk.own disk.old b
        → result ≡ Err (FileError.NotEditFile at) → BreaksAt b at }
    ensures unchanged { LeavesRefused D.Disk.own disk.old disk.new result }
    ensures crash { (b : List ℕ) (batches : List (List Edit)) → FileStands b batches
        → Holds D.Disk.own disk.old b
        → LeavesOnly D.Disk.own disk.old disk.new (λ image. FileStands image batches) }
    ensures named { KeepsName D.Disk.own disk.old disk.new }
    ensures count { CountsOpening (D.faults disk.old) (D.faults disk.new) result }
{
    if !has_head(disk)? {
        return Err(FileError::NotEditFile { at: 0 });
    }
    let (closing, batches) = read_frames(alloc, disk, len)?;
    cut_safely(disk, closing + 1)?;
    Ok((closing, batches))
}

// Reads frames up to the closing byte, and returns its offset and the batches.
fn read_frames<D: Disk>(
    alloc: Global,
    disk: &mut D,
    len: u64,
) -> Result<(u64, Vec<Batch>), FileError>
    requires short { len < 2 ^ 63 }
    ensures found { (b rest : List ℕ) → length b ≡ len → D.bytes disk.old ≡ Some b
        → b ≡ opened ∷ signature ++ rest → IfOk result (λ r. ClosesAt b r.0 r.1.items) }
    ensures near { IfOk result (λ r. r.0 < 2 ^ 63) }
    ensures filled { IfOk result (λ r. All (λ batch. batch ≢ []) r.1.items) }
    ensures valid { IfOk result (λ r. All AreValid r.1.items) }
    ensures breaks { (b rest : List ℕ) (at : ℕ) → length b ≡ len → D.bytes disk.old ≡ Some b
        → b ≡ opened ∷ signature ++ rest → result ≡ Err (FileError.NotEditFile at)
        → IsNoFrame b at }
    ensures unchanged { LeavesRefused D.Disk.own disk.old disk.new result }
    ensures stays { OnlyReads D.Disk.own disk.old disk.new result }
    ensures count { CountsOpening (D.faults disk.old) (D.faults disk.new) result }
{
    let mut batches = Vec::new(alloc);
    let mut at = 9;
    'frames: loop {
        match read_frame(alloc, disk, at, len)? {
            Found::Frame { batch, size } => {
                batches.push(batch)?;
                at += size;
            }
            Found::Closed => return Ok((at, batches)),
            Found::Broken => return Err(FileError::NotEditFile { at }),
        }
    }
}

//! Opens a share together with the file that keeps its edits.

ghost use Rattle.std.specs.Prelude.{◌≡◌, ◌≢◌, ◌⊎◌, ◌≤◌, ◌++◌, ◌∷◌, [], All, ℕ, false, length, IfOk, IfErr, OnOk};
ghost use Rattle.item_model.specs.Limits.{text_limit};
ghost use Rattle.item_model.specs.Valid.{AreValid};
ghost use Rattle.outside_disks.specs.Told.{Grows};
ghost use Rattle.records_import.specs.Written.{IsReadable};
ghost use Rattle.edit_file.specs.Files.{HasBatches, faults_of, is_broken, place_of};
ghost use Rattle.share_core.specs.Opened.{if_filled};
ghost use Rattle.kept_library.specs.Opening.{AreFew, CountsFault, CountsStop, HasOpened, LeavesRefused, LosesFirst, StopsShare, StopsOpening, share_of};

use crate::fault::{FileFault, file_fault, open_fault};
use command_core::Fault;
use edit_file::{EditFile, Frame};
use item_model::Batch;
use outside_net::{Disk, Files};
use share_core::Share;
use std::alloc::{AllocError, Global};

/// A share, and the file that keeps its edits.
#[derive(Drop)]
pub struct KeptLibrary<D: Disk + Drop> {
    pub share: Share,
    pub file: EditFile<D>,
}

/// Opens the edit file with the name `path`, and a share with the file's batches and then the batch `first`, if that
/// has edits, which is appended to the file. The share has the name `name`, and a delta window of `keep` revisions.
///
/// # Errors
///
/// Returns `NotEditFile` if the file is not an edit file, `TooManyEdits` or `TooManyLists` if the batches pass a limit
/// of a share, `Failed` if a call on the file or on `files` failed, and `Memory` if an allocation fails. The disk is
/// then closed.
pub fn open_library<F: Files>(
    alloc: Global,
    files: &mut F,
    path: &str,
    name: &str,
    keep: u32,
    first: Batch,
) -> Result<KeptLibrary<F::D>, Fault<FileFault>>
    requires name { length name.now ≤ text_limit }
    requires some { 1 ≤ keep }
    requires window { keep ≤ 65536 }
    requires valid { AreValid first }
    requires readable { IsReadable first }
    ensures opened { IfOk result (HasOpened F.D.Disk.own (F.contents files.old) path.now
        (record { name = name.now; keep = keep }) first) }
    ensures stops { IfErr result (StopsOpening (F.contents files.old) path.now first) }
    ensures left { IfErr result
        (LeavesRefused (F.contents files.old) (F.contents files.new) path.now first) }
    ensures asks { Grows (F.asked files.old) (F.asked files.new) (path.now ∷ []) }
    ensures contents { OnOk result (F.contents files.new ≡ F.contents files.old) }
    ensures count { CountsStop (F.faults files.old) (F.faults files.new) result }
{
    let Ok(disk) = files.open(path) else {
        return Err(Fault::Own(FileFault::Failed));
    };
    let (mut file, batches) = match EditFile::open(alloc, disk) {
        Ok(opened) => opened,
        Err((error, disk)) => {
            files.close(disk);
            return Err(file_fault(error));
        }
    };
    match open_and_append(alloc, &mut file, name, keep, batches, first) {
        Ok(share) => Ok(KeptLibrary { share, file }),
        Err(stop) => {
            files.close(file.into_disk());
            Err(stop)
        }
    }
}

// Opens the share with `batches` and then `first`, and appends `first` to the file.
fn open_and_append<D: Disk + Drop>(
    alloc: Global,
    file: &mut EditFile<D>,
    name: &str,
    keep: u32,
    batches: Vec<Batch>,
    first: Batch,
) -> Result<Share, Fault<FileFault>>
    requires name { length name.now ≤ text_limit }
    requires some { 1 ≤ keep }
    requires window { keep ≤ 65536 }
    requires filled { All (λ batch. batch ≢ []) batches.items }
    requires are_valid { All AreValid batches.items }
    requires valid { AreValid first }
    requires readable { IsReadable first }
    requires sound { is_broken D.Disk.own file.old ≡ false }
    ensures opened { IfOk result (λ share. share
        ≡ share_of (record { name = name.now; keep = keep }) (batches.items ++ if_filled first)) }
    ensures few { OnOk result (AreFew (batches.items ++ if_filled first)) }
    ensures stops { IfErr result (StopsShare (batches.items ++ if_filled first)) }
    ensures unchanged { IfErr result (λ stop. (file.new ≡ file.old)
        ⊎ ((stop ≡ Fault.Own FileFault.Failed)
        × LosesFirst D.Disk.own file.old file.new batches.items first)) }
    ensures keeps { HasBatches D.Disk.own file.old batches.items
        → OnOk result (HasBatches D.Disk.own file.new (batches.items ++ if_filled first)) }
    ensures sound { OnOk result (is_broken D.Disk.own file.new ≡ false) }
    ensures place_stays { place_of D.Disk.own file.new ≡ place_of D.Disk.own file.old }
    ensures count { CountsStop (faults_of D.Disk.own file.old) (faults_of D.Disk.own file.new)
        result }
{
    if first.edits.as_slice().is_empty() {
        return share_with(alloc, name, keep, batches);
    }
    let frame = Frame::of(alloc, &first)?;
    let batches = with_last(batches, first)?;
    let share = share_with(alloc, name, keep, batches)?;
    match file.append(frame) {
        Ok(()) => Ok(share),
        Err(_lost) => Err(Fault::Own(FileFault::Failed)),
    }
}

// Returns `batches` with `last` appended.
fn with_last(batches: Vec<Batch>, last: Batch) -> Result<Vec<Batch>, AllocError>
    ensures { IfOk result (λ all. all.items ≡ batches.items ++ last ∷ []) }
{
    let mut batches = batches;
    batches.push(last)?;
    Ok(batches)
}

// Opens the share that begins with `batches`.
fn share_with(
    alloc: Global,
    name: &str,
    keep: u32,
    batches: Vec<Batch>,
) -> Result<Share, Fault<FileFault>>
    requires name { length name.now ≤ text_limit }
    requires some { 1 ≤ keep }
    requires window { keep ≤ 65536 }
    requires filled { All (λ batch. batch ≢ []) batches.items }
    requires valid { All AreValid batches.items }
    ensures opened { IfOk result (λ share. share
        ≡ share_of (record { name = name.now; keep = keep }) batches.items) }
    ensures few { OnOk result (AreFew batches.items) }
    ensures stops { IfErr result (StopsShare batches.items) }
    ensures count { (n : ℕ) → IfErr result (CountsFault n n) }
{
    match Share::open_batches(alloc, name, keep, batches) {
        Ok(share) => Ok(share),
        Err(error) => Err(open_fault(error)),
    }
}

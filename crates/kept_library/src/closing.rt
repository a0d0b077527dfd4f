//! Closes the disk of a file that kept edits.

ghost use Rattle.std.specs.Prelude.{◌≡◌, List, ℕ, true, false, is_err};
ghost use Rattle.item_model.specs.declared.changes.Edit.{Edit};
ghost use Rattle.outside_disks.specs.Counts.{RisesWith};
ghost use Rattle.edit_file.specs.Files.{HasBatches, faults_of, is_broken};
ghost use Rattle.kept_library.specs.Closing.{IsNamedIn, StoresBatches, StoresOrOneMore};

use edit_file::EditFile;
use outside_net::{Failed, Files};

/// Closes the disk of `file`, which `files` opened. The bytes under the file's name then represent its batches; if an
/// append has failed, one more may be there.
///
/// # Errors
///
/// Returns `Failed` if an append to the file has failed.
pub fn close_file<F: Files>(files: &mut F, file: EditFile<F::D>) -> Result<(), Failed>
    ensures failed { is_err result ≡ is_broken F.D.Disk.own file }
    ensures kept { (path : List ℕ) (batches : List (List Edit))
        → is_broken F.D.Disk.own file ≡ false → HasBatches F.D.Disk.own file batches
        → IsNamedIn F.Files F.D.Disk.own files.old file path
        → StoresBatches F.Files files.old files.new path batches }
    ensures lost { (path : List ℕ) (batches : List (List Edit))
        → is_broken F.D.Disk.own file ≡ true → HasBatches F.D.Disk.own file batches
        → IsNamedIn F.Files F.D.Disk.own files.old file path
        → StoresOrOneMore F.Files files.old files.new path batches }
    ensures asked_stays { F.asked files.new ≡ F.asked files.old }
    ensures count { RisesWith (F.faults files.old) (F.faults files.new)
        (faults_of F.D.Disk.own file) }
{
    let is_broken = file.broken();
    files.close(file.into_disk());
    if is_broken {
        return Err(Failed);
    }
    Ok(())
}

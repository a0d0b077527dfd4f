//! Keeps one more batch.
ghost use Rattle.std.specs.Prelude.{◌≡◌, ◌↔◌, ℕ, ◌^◌, ◌<◌, List, [], ◌∷◌, ◌++◌, length, true, false, Err, IfSome, OnOk, OnErr, is_err, is_some, MatchResult};
ghost use Rattle.item_model.specs.declared.changes.Edit.{Edit};
ghost use Rattle.outside_disks.specs.Counts.{CountsFaults};
ghost use Rattle.edit_file.specs.Files.{CrashLeavesOnly, HasBatches, StandsWithOrWithout, bytes_of, disk_of, faults_of, is_broken, name_of};

use crate::adding::add_behind;
use crate::file::EditFile;
use crate::frame::Frame;
use outside_disks::Disk;
use thiserror::Error;

/// Why a batch was not appended.
#[derive(Debug, Drop, Error)]
pub enum AppendError {
    /// An earlier append failed, so nothing was done.
    #[error("the edit file is broken")]
    Broken,
    /// The disk failed, and the file is broken.
    #[error("the edit file's disk failed")]
    Failed,
}

impl<D: Disk + Drop> EditFile<D> {
    /// Keeps one more batch. Does not allocate.
    ///
    /// # Errors
    ///
    /// Returns `Broken` if an earlier call returned `Failed`; nothing is done. Returns `Failed` if the disk failed:
    /// the batch may be in the file or not, and the file takes no more.
    pub fn append(&mut self, frame: Frame) -> Result<(), AppendError>
        ensures acknowledged { (batches : List (List Edit)) → HasBatches D.Disk.own self.old batches
            → OnOk result (HasBatches D.Disk.own self.new (batches ++ frame ∷ [])) }
        ensures kept { (batches : List (List Edit)) → HasBatches D.Disk.own self.old batches
            → OnErr result (HasBatches D.Disk.own self.new batches) }
        ensures crash { (batches : List (List Edit)) → is_broken D.Disk.own self.old ≡ false
            → HasBatches D.Disk.own self.old batches → IfSome (bytes_of D.Disk.own self.old) (λ _.
            CrashLeavesOnly D.Disk.own self.old self.new (StandsWithOrWithout batches frame)) }
        ensures broken { result ≡ Err AppendError.Broken ↔ (is_broken D.Disk.own self.old ≡ true) }
        ensures unchanged { result ≡ Err AppendError.Broken → self.new ≡ self.old }
        ensures breaks { is_broken D.Disk.own self.new ≡ is_err result }
        ensures told_stays { is_some (bytes_of D.Disk.own self.new)
            ≡ is_some (bytes_of D.Disk.own self.old) }
        ensures name_stays { name_of D.Disk.own self.new ≡ name_of D.Disk.own self.old }
        ensures count { is_broken D.Disk.own self.old ≡ false
            → CountsFaults (faults_of D.Disk.own self.old) (faults_of D.Disk.own self.new) result }
    {
        if self.is_broken {
            return Err(AppendError::Broken);
        }
        let text = frame.as_slice();
        if add_behind(&mut self.disk, self.closing, text).is_err() {
            self.is_broken = true;
            return Err(AppendError::Failed);
        }
        self.closing += text.len() as u64;
        Ok(())
    }

    /// Returns whether an append has failed.
    pub fn broken(&self) -> bool
        ensures { result ≡ is_broken D.Disk.own self.now }
    {
        self.is_broken
    }

    /// Returns the disk.
    pub fn into_disk(self) -> D
        ensures { result ≡ disk_of D.Disk.own self }
    {
        self.disk
    }
}

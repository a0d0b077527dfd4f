//! An edit file as the keeper of a server's accepted batches.
ghost use Rattle.std.specs.Prelude.{◌≡◌, ◌≢◌, List, [], ◌∷◌, ◌++◌, false, IfOk, OnOk, OnErr, is_err};
ghost use Rattle.item_model.specs.declared.changes.Edit.{Edit};
ghost use Rattle.outside_disks.specs.Counts.{CountsFaults};
ghost use Rattle.records_import.specs.Written.{IsReadable};
ghost use Rattle.edit_file.specs.Files.{HasBatches, faults_of, is_broken, place_of};

use crate::file::EditFile;
use crate::frame::Frame;
use edit_keeping::{Keeps, Lost};
use item_model::Batch;
use outside_disks::Disk;
use std::alloc::{AllocError, Global};

impl<D: Disk + Drop> Keeps for EditFile<D> {
    type Ready = Frame;

    ghost keeps = { λ file batches. HasBatches D.Disk.own file batches };

    ghost is_lost = { λ file. is_broken D.Disk.own file };

    ghost faults = { λ file. faults_of D.Disk.own file };

    ghost place = { λ file. place_of D.Disk.own file };

    ghost is_for = { λ frame batch. frame ≡ batch };

    fn ready(&self, alloc: Global, batch: &Batch) -> Result<Frame, AllocError> {
        Frame::of(alloc, batch)
    }

    fn keep(&mut self, frame: Frame) -> Result<(), Lost> {
        match self.append(frame) {
            Ok(()) => Ok(()),
            Err(_refusal) => Err(Lost),
        }
    }
}

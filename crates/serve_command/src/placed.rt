//! A file that keeps edits, with the name under which it was opened.
ghost use Rattle.std.specs.Prelude.{◌≡◌, List, ℕ, Option, None};
ghost use Rattle.edit_file.specs.Files.{HasBatches, faults_of, is_broken, place_of};

use edit_file::{EditFile, Frame};
use edit_keeping::{Keeps, Lost};
use item_model::Batch;
use outside_net::Disk;
use std::alloc::{AllocError, Global};
use std::marker::{Brand, PhantomData};

/// The name of an edit file, if that is known.
pub(crate) trait Placed {
    ghost place: { Option (List ℕ) };
}

impl Placed for Brand {
    ghost place = { None };
}

/// An edit file with its name.
pub(crate) struct NamedFile<D: Disk + Drop, P: Placed> {
    pub(crate) file: EditFile<D>,
    pub(crate) of: PhantomData<P>,
}

impl<D: Disk + Drop, P: Placed> Keeps for NamedFile<D, P> {
    type Ready = Frame;

    ghost keeps = { λ placed batches. HasBatches D.Disk.own placed.file batches × (place_of D.Disk.own placed.file ≡ P.place) };

    ghost is_lost = { λ placed. is_broken D.Disk.own placed.file };

    ghost faults = { λ placed. faults_of D.Disk.own placed.file };

    ghost place = { λ placed. place_of D.Disk.own placed.file };

    ghost is_for = { λ frame batch. frame ≡ batch };

    fn ready(&self, alloc: Global, batch: &Batch) -> Result<Frame, AllocError> {
        self.file.ready(alloc, batch)
    }

    fn keep(&mut self, frame: Frame) -> Result<(), Lost> {
        self.file.keep(frame)
    }
}

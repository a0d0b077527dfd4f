//! Files in memory.
ghost use Rattle.std.specs.Prelude.{◌≡◌, ◌∷◌, [], All, IfOk, IfSome, None, Some};
ghost use Rattle.outside_disks.specs.Counts.{CountsFaults, RisesWith};

use crate::faulted::{Failed, Faulted, counted};
use crate::files::Files;
use crate::memory::disk::MemDisk;
use crate::memory::shelf::Shelf;
use std::alloc::{AllocError, Global};

/// Files whose disks were given to them. Each is opened once, in order, under whatever name, with a copy of the bytes
/// that were closed under that name last. If no disk is left with the capacity for them, the call fails.
///
/// The bytes of each name are always known, and the requested names up to their capacity.
pub struct MemFiles {
    shelf: Option<Shelf>,
    faults: u64,
}

impl Drop for MemFiles {
    fn drop(self) {
        let MemFiles {
            shelf: _,
            faults: _,
        } = self;
    }
}

impl MemFiles {
    ghost use Rattle.std.specs.FinMap as finite;
    ghost use Rattle.outside_disks.specs.Shelf.{files_asked, files_contents};

    /// Returns files without disks, so that none can be opened. Nothing of them is known.
    pub fn new() -> MemFiles
        ensures { ⟦<MemFiles as Faulted>⟧.faults result ≡ 0 }
    {
        MemFiles {
            shelf: None,
            faults: 0,
        }
    }

    /// Returns files with these disks, to be opened in order, and capacity for `opens` requested names.
    ///
    /// # Errors
    ///
    /// Returns `AllocError` if an allocation fails.
    pub fn with_disks(
        alloc: Global,
        disks: Vec<MemDisk>,
        opens: usize,
    ) -> Result<MemFiles, AllocError>
        ensures asked { IfOk result (λ files. files_asked files ≡ Some []) }
        ensures contents { IfOk result (λ files. files_contents files ≡ Some finite.empty) }
        ensures faults { IfOk result (λ files. ⟦<MemFiles as Faulted>⟧.faults files ≡ 0) }
    {
        Ok(MemFiles {
            shelf: Some(Shelf::new(alloc, disks, opens)?),
            faults: 0,
        })
    }
}

impl Faulted for MemFiles {
    ghost faults = { λ files. files.faults };
}

impl Files for MemFiles {
    type D = MemDisk;

    ghost use Rattle.outside_disks.specs.Shelf.{files_asked, files_contents};

    ghost asked = { files_asked };

    ghost contents = { files_contents };

    fn open(&mut self, name: &str) -> Result<MemDisk, Failed> {
        let Some(shelf) = &mut self.shelf else {
            return Err(counted(&mut self.faults));
        };
        shelf.ask(name);
        match shelf.take(name) {
            Some(disk) => Ok(disk),
            None => Err(counted(&mut self.faults)),
        }
    }

    fn close(&mut self, disk: MemDisk) {
        if disk.is_faulted() {
            counted(&mut self.faults);
        }
        if let Some(shelf) = &mut self.shelf {
            shelf.close(disk);
        }
    }
}

//! Disks in memory that are to be opened, and those that were closed.
ghost use Rattle.std.specs.Prelude.{◌≡◌, ◌≤◌, ◌<◌, ◌∷◌, [], IfOk, IfSome, None, Some, length, unwrap_or};

use crate::memory::closed::ClosedFiles;
use crate::memory::disk::{MemDisk, NAME_ROOM};
use std::alloc::{AllocError, Global};
use std::collections::VecDeque;
use std::marker::Model;

/// A name that was requested.
#[derive(Drop)]
pub(crate) struct FileName {
    text: [u8; NAME_ROOM],
    len: usize,
}

impl Model for FileName {
    ghost use Rattle.std.specs.Prelude.{List, ℕ, ◌≤◌, take, length};

    ghost Value = { List ℕ };

    ghost view = { λ a. take a.len a.text };

    ghost invariant = { λ a. a.len ≤ length a.text };
}

impl FileName {
    fn new(name: &str) -> FileName
        requires { length name.now ≤ NAME_ROOM }
        ensures { result ≡ name.now }
    {
        let mut text = [0; NAME_ROOM];
        text[..name.len()].copy_from_slice(name.as_bytes());
        FileName {
            text,
            len: name.len(),
        }
    }
}

/// The disks of files in memory. The capacity for requested names is allocated at the start, and each disk brings the
/// memory to keep it once it is closed.
#[derive(Drop)]
pub(crate) struct Shelf {
    spare: VecDeque<MemDisk>,
    closed: ClosedFiles,
    asked: Vec<FileName>,
    is_asked_told: bool,
}

impl Shelf {
    ghost use Rattle.std.specs.FinMap as finite;
    ghost use Rattle.outside_disks.specs.Told.{Grows};
    ghost use Rattle.outside_disks.specs.Calls.{name_of, bytes_of, images_of};
    ghost use Rattle.outside_disks.specs.Disks.{Only};
    ghost use Rattle.outside_disks.specs.Shelf.{contents_in, asked_in, spare_in};

    /// Returns the disks, to be opened in order, with capacity for `opens` requested names.
    pub(crate) fn new(alloc: Global, disks: Vec<MemDisk>, opens: usize) -> Result<Shelf, AllocError>
        ensures asked { IfOk result (λ shelf. asked_in shelf ≡ Some []) }
        ensures contents { IfOk result (λ shelf. contents_in shelf ≡ finite.empty) }
        ensures spare { IfOk result (λ shelf. spare_in shelf ≡ disks.items) }
    {
        Ok(Shelf {
            spare: VecDeque::from(disks),
            closed: ClosedFiles::Empty,
            asked: Vec::with_capacity(alloc, opens)?,
            is_asked_told: true,
        })
    }

    /// Records the requested name.
    pub(crate) fn ask(&mut self, name: &str)
        ensures asks { Grows (asked_in self.old) (asked_in self.new) (name.now ∷ []) }
        ensures contents_stay { contents_in self.new ≡ contents_in self.old }
        ensures spare_stays { spare_in self.new ≡ spare_in self.old }
    {
        if name.len() <= NAME_ROOM && self.asked.len() < self.asked.capacity() {
            self.asked.push_reserved(FileName::new(name));
        } else {
            self.is_asked_told = false;
        }
    }

    /// Returns the next disk with the bytes of the name, if its capacity is enough for them.
    pub(crate) fn take(&mut self, name: &str) -> Option<MemDisk>
        ensures opened { IfSome result (λ disk. (name_of disk ≡ name.now)
            × (bytes_of disk ≡ unwrap_or (finite.get (contents_in self.old) name.now) [])) }
        ensures alone { IfSome result (λ disk. Only (Some (bytes_of disk)) (images_of disk)) }
        ensures fresh { IfSome result (λ disk. disk.faults ≡ 0) }
        ensures none { spare_in self.old ≡ [] → result ≡ None }
        ensures asked_stays { asked_in self.new ≡ asked_in self.old }
        ensures contents_stay { contents_in self.new ≡ contents_in self.old }
    {
        let mut disk = self.spare.pop_front()?;
        if disk.begin(name, self.closed.bytes_of(name.as_bytes())) {
            Some(disk)
        } else {
            None
        }
    }

    /// Keeps the bytes of a disk under its name.
    pub(crate) fn close(&mut self, disk: MemDisk)
        ensures closed { contents_in self.new
            ≡ finite.insert (contents_in self.old) (name_of disk) (bytes_of disk) }
        ensures asked_stays { asked_in self.new ≡ asked_in self.old }
    {
        disk.close(&mut self.closed);
    }
}

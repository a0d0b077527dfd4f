//! What keeps bytes by name.
ghost use Rattle.std.specs.Prelude.{◌≡◌, ℕ, List, [], ◌∷◌, IfOk, Option};
ghost use Rattle.outside_disks.specs.Counts.{CountsFaults, RisesWith};
ghost use Rattle.outside_disks.specs.Told.{Grows};
ghost use Rattle.outside_disks.specs.Contents.{Contents, OpensFile, ClosesFile};
ghost use Rattle.outside_disks.specs.Disks.{Only};

use crate::disk::Disk;
use crate::faulted::{Failed, Faulted};

/// What opens disks by name.
pub trait Files: Faulted {
    type D: Disk + Drop;

    // The names requested so far, if known.
    ghost asked: { Self → Option (List (List ℕ)) };

    // The bytes of each name, if known.
    ghost contents: { Self → Option Contents };

    /// Opens the disk of a name. A new one is empty. All its bytes are safe from a crash.
    fn open(&mut self, name: &str) -> Result<Self::D, Failed>
        ensures fresh { IfOk result (λ disk. Self.D.faults disk ≡ 0) }
        ensures opened { IfOk result (λ disk. OpensFile (contents self.old) name.now
            (Self.D.opened_as disk) (Self.D.bytes disk)) }
        ensures alone { IfOk result (λ disk. Only (Self.D.bytes disk) (Self.D.images disk)) }
        ensures asks { Grows (asked self.old) (asked self.new) (name.now ∷ []) }
        ensures contents_stay { contents self.new ≡ contents self.old }
        ensures count { CountsFaults (Self.faults self.old) (Self.faults self.new) result };

    /// Closes a disk that was opened here. Does not allocate.
    fn close(&mut self, disk: Self::D)
        ensures asked_stays { asked self.new ≡ asked self.old }
        ensures closed { ClosesFile (contents self.old) (contents self.new)
            (Self.D.opened_as disk) (Self.D.bytes disk) }
        ensures count { RisesWith (Self.faults self.old) (Self.faults self.new)
            (Self.D.faults disk) };
}

//! Adds bytes after a closing byte, and then opens that byte. Each change is safe before the next.
ghost use Rattle.std.specs.Prelude.{◌≡◌, ℕ, ◌+◌, ◌^◌, ◌<◌, ◌≤◌, List, [], ◌∷◌, ◌++◌, length, IfSome, OnOk};
ghost use Rattle.outside_disks.specs.Counts.{CountsFaults};
ghost use Rattle.edit_file.specs.Adding.{IsClosedOrFramed};
ghost use Rattle.edit_file.specs.Moments.{Holds, KeepsName, LeavesOnly};
ghost use Rattle.edit_file.specs.Standing.{opened};

use crate::safely::write_safely;
use outside_disks::{Disk, Failed};

/// Writes `frame` after the byte at the offset `closing`, and then makes that byte the open one. The last byte of
/// `frame` must close again.
pub(crate) fn add_behind<D: Disk>(disk: &mut D, closing: u64, frame: &[u8]) -> Result<(), Failed>
    requires some { 0 < length frame.now }
    requires near { closing < 2 ^ 63 }
    requires inside { IfSome (D.bytes disk.old) (λ b. closing < length b) }
    ensures added { (front : List ℕ) (shut : ℕ) → length front ≡ closing
        → Holds D.Disk.own disk.old (front ++ shut ∷ [])
        → OnOk result (Holds D.Disk.own disk.new (front ++ opened ∷ frame.now)) }
    ensures crash { (front : List ℕ) (shut : ℕ) → length front ≡ closing
        → Holds D.Disk.own disk.old (front ++ shut ∷ [])
        → LeavesOnly D.Disk.own disk.old disk.new (IsClosedOrFramed front shut frame.now) }
    ensures near { OnOk result (closing + 1 + length frame.now < 2 ^ 63) }
    ensures inside { OnOk result (IfSome (D.bytes disk.new)
        (λ b. closing + length frame.now < length b)) }
    ensures named { KeepsName D.Disk.own disk.old disk.new }
    ensures count { CountsFaults (D.faults disk.old) (D.faults disk.new) result }
{
    write_safely(disk, closing + 1, frame)?;
    write_safely(disk, closing, &[1])
}

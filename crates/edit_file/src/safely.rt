//! Single changes of a disk that return once they are safe from a crash.
ghost use Rattle.std.specs.Prelude.{◌≡◌, ℕ, ◌+◌, ◌^◌, ◌<◌, ◌≤◌, List, length, take, IfSome, IsErr, OnOk, option_map};
ghost use Rattle.outside_disks.specs.Counts.{CountsFaults};
ghost use Rattle.outside_disks.specs.Disks.{overlaid, Torn, CutShort, Only};
ghost use Rattle.edit_file.specs.Moments.{Does, KeepsName};

use outside_disks::{Disk, Failed};

/// Writes `piece` at offset `at`, and returns once it is safe.
pub(crate) fn write_safely<D: Disk>(disk: &mut D, at: u64, piece: &[u8]) -> Result<(), Failed>
    requires some { 0 < length piece.now }
    requires inside { IfSome (D.bytes disk.old) (λ b. at ≤ length b) }
    ensures written { OnOk result (D.bytes disk.new
        ≡ option_map (λ b. overlaid b at piece.now) (D.bytes disk.old)) }
    ensures safe { OnOk result (Only (D.bytes disk.new) (D.images disk.new)) }
    ensures far { 2 ^ 63 ≤ at + length piece.now → IsErr result }
    ensures does { Does D.Disk.own (Torn at (length piece.now)) disk.old disk.new }
    ensures named { KeepsName D.Disk.own disk.old disk.new }
    ensures count { CountsFaults (D.faults disk.old) (D.faults disk.new) result }
{
    disk.write_at(at, piece)?;
    disk.sync()
}

/// Truncates the bytes to the first `len`, and returns once that is safe.
pub(crate) fn cut_safely<D: Disk>(disk: &mut D, len: u64) -> Result<(), Failed>
    requires inside { IfSome (D.bytes disk.old) (λ b. len ≤ length b) }
    ensures shorter { OnOk result (D.bytes disk.new ≡ option_map (take len) (D.bytes disk.old)) }
    ensures safe { OnOk result (Only (D.bytes disk.new) (D.images disk.new)) }
    ensures does { Does D.Disk.own (CutShort len) disk.old disk.new }
    ensures named { KeepsName D.Disk.own disk.old disk.new }
    ensures count { CountsFaults (D.faults disk.old) (D.faults disk.new) result }
{
    disk.cut(len)?;
    disk.sync()
}

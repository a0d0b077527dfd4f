//! Makes a file in steps. Each is safe before the next.
ghost use Rattle.std.specs.Prelude.{◌≡◌, ℕ, ◌≤◌, List, [], length, IfSome, OnOk};
ghost use Rattle.outside_disks.specs.Counts.{CountsFaults};
ghost use Rattle.edit_file.specs.Making.{IsBegun, empty_file};
ghost use Rattle.edit_file.specs.Moments.{Holds, KeepsName, LeavesOnly};
ghost use Rattle.edit_file.specs.Standing.{FileStands, IsUnmade};

use crate::safely::write_safely;
use outside_disks::{Disk, Failed};

/// Makes an unfinished file with `len` bytes a finished one without batches.
pub(crate) fn make<D: Disk>(disk: &mut D, len: u64) -> Result<(), Failed>
    requires known { IfSome (D.bytes disk.old) (λ b. length b ≡ len) }
    ensures made { (bytes : List ℕ) → IsUnmade bytes → Holds D.Disk.own disk.old bytes
        → OnOk result (Holds D.Disk.own disk.new empty_file) }
    ensures crash { (bytes : List ℕ) → IsUnmade bytes → Holds D.Disk.own disk.old bytes
        → LeavesOnly D.Disk.own disk.old disk.new (λ image. FileStands image []) }
    ensures named { KeepsName D.Disk.own disk.old disk.new }
    ensures count { CountsFaults (D.faults disk.old) (D.faults disk.new) result }
{
    begin(disk, len)?;
    make_begun(disk)
}

// Ensures that there is a first byte, and that it closes.
fn begin<D: Disk>(disk: &mut D, len: u64) -> Result<(), Failed>
    requires known { IfSome (D.bytes disk.old) (λ b. length b ≡ len) }
    ensures begun { (bytes : List ℕ) → IsUnmade bytes → Holds D.Disk.own disk.old bytes
        → OnOk result ((begun : List ℕ) × IsBegun begun × Holds D.Disk.own disk.new begun) }
    ensures crash { (bytes : List ℕ) → IsUnmade bytes → Holds D.Disk.own disk.old bytes
        → LeavesOnly D.Disk.own disk.old disk.new IsUnmade }
    ensures inside { OnOk result (IfSome (D.bytes disk.new) (λ b. 1 ≤ length b)) }
    ensures named { KeepsName D.Disk.own disk.old disk.new }
    ensures count { CountsFaults (D.faults disk.old) (D.faults disk.new) result }
{
    if len >= 2 {
        return Ok(());
    }
    write_safely(disk, 0, &[0])
}

// Writes all but the first byte, and then opens the first.
fn make_begun<D: Disk>(disk: &mut D) -> Result<(), Failed>
    requires inside { IfSome (D.bytes disk.old) (λ b. 1 ≤ length b) }
    ensures made { (bytes : List ℕ) → IsBegun bytes → Holds D.Disk.own disk.old bytes
        → OnOk result (Holds D.Disk.own disk.new empty_file) }
    ensures crash { (bytes : List ℕ) → IsBegun bytes → Holds D.Disk.own disk.old bytes
        → LeavesOnly D.Disk.own disk.old disk.new (λ image. FileStands image []) }
    ensures named { KeepsName D.Disk.own disk.old disk.new }
    ensures count { CountsFaults (D.faults disk.old) (D.faults disk.new) result }
{
    write_safely(disk, 1, b"DAAPEDIT\0")?;
    write_safely(disk, 0, &[1])
}

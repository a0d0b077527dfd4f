//! An open edit file.
ghost use Rattle.std.specs.Prelude.{◌≡◌, ◌^◌, ◌<◌, length, false};
ghost use Rattle.std.specs.Option.{ForSome};

use outside_disks::Disk;

/// A file that keeps accepted batches, open on its disk.
#[derive(Drop)]
pub struct EditFile<D: Disk + Drop> {
    pub(crate) disk: D,
    // the offset of the closing byte
    pub(crate) closing: u64,
    pub(crate) is_broken: bool,
    ghost near: { closing < 2 ^ 63 },
    ghost inside: { is_broken ≡ false → ForSome (D.Disk.bytes disk) (λ b. closing < length b) },
}

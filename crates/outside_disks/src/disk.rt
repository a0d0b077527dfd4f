//! Bytes that outlast a crash, in part.
ghost use Rattle.std.specs.Prelude.{◌≡◌, ℕ, ◌+◌, ◌-◌, ◌^◌, ◌<◌, ◌≤◌, List, length, take, IfOk, IsErr, IfSome, OnOk, Option, option_map, is_some, Some};
ghost use Rattle.std.specs.Io.{ReadsAtMost};
ghost use Rattle.outside_disks.specs.Counts.{CountsFaults};
ghost use Rattle.outside_disks.specs.Disks.{overlaid, ReadsFrom, Torn, CutShort, Follows, NoMore, Only, Elapses};

use crate::faulted::{Failed, Faulted};

/// Bytes at offsets from 0, fewer than 2^63, which can be overwritten, extended and truncated.
///
/// A crash leaves an image of them. Each image has what was written before the last `sync`. What was written since
/// may be in it whole, in part or not at all.
pub trait Disk: Faulted {
    // The bytes that reads return, if known.
    ghost bytes: { Self → Option (List ℕ) };

    // The name by which it was opened, if known.
    ghost opened_as: { Self → Option (List ℕ) };

    // What a crash now may leave. A disk whose bytes are unknown has no image.
    ghost images: { Self → List ℕ → Type 0 };

    // The time, as a number that never decreases.
    ghost clock: { Self → ℕ };

    // What a crash at some moment since this time might have left, within a call or between two.
    ghost since: { Self → ℕ → List ℕ → Type 0 };

    /// Returns the number of bytes, below 2^63.
    ///
    /// # Errors
    ///
    /// Returns `Failed` and counts an error if the length is not available.
    fn len(&mut self) -> Result<u64, Failed>
        ensures length { IfOk result (λ n. IfSome (bytes self.old) (λ b. n ≡ length b)) }
        ensures short { IfOk result (λ n. n < 2 ^ 63) }
        ensures bytes_stay { OnOk result (bytes self.new ≡ bytes self.old) }
        ensures images_stay { NoMore (images self.old) (images self.new) }
        ensures told_stays { is_some (bytes self.new) ≡ is_some (bytes self.old) }
        ensures name_stays { opened_as self.new ≡ opened_as self.old }
        ensures time { Elapses (clock self.old) (clock self.new) (since self.old) (since self.new)
            (images self.new) }
        ensures count { CountsFaults (Self.faults self.old) (Self.faults self.new) result };

    /// Reads bytes at offset `at` into the start of `room`, and returns how many: 0 exactly if `at` is at or past the
    /// end.
    ///
    /// # Errors
    ///
    /// Returns `Failed` and counts an error if the bytes could not be read.
    fn read_at(&mut self, at: u64, room: &mut [u8]) -> Result<usize, Failed>
        requires some { 0 < length room.old }
        ensures within { ReadsAtMost result room.new }
        ensures reads { IfOk result (λ n. IfSome (bytes self.old)
            (λ b. ReadsFrom b at n room.new)) }
        ensures bytes_stay { OnOk result (bytes self.new ≡ bytes self.old) }
        ensures images_stay { NoMore (images self.old) (images self.new) }
        ensures told_stays { is_some (bytes self.new) ≡ is_some (bytes self.old) }
        ensures name_stays { opened_as self.new ≡ opened_as self.old }
        ensures time { Elapses (clock self.old) (clock self.new) (since self.old) (since self.new)
            (images self.new) }
        ensures count { CountsFaults (Self.faults self.old) (Self.faults self.new) result };

    /// Writes the whole of `piece` at offset `at`, over the old bytes there and past the end.
    ///
    /// # Errors
    ///
    /// Returns `Failed` and counts an error if some of it may not be written, or if it would end past 2^63 - 1. In
    /// the latter case nothing is done.
    fn write_at(&mut self, at: u64, piece: &[u8]) -> Result<(), Failed>
        requires some { 0 < length piece.now }
        requires inside { IfSome (bytes self.old) (λ b. at ≤ length b) }
        ensures written { OnOk result
            (bytes self.new ≡ option_map (λ b. overlaid b at piece.now) (bytes self.old)) }
        ensures torn { Follows (Torn at (length piece.now)) (images self.old) (images self.new) }
        ensures far { 2 ^ 63 ≤ at + length piece.now → IsErr result }
        ensures undone { 2 ^ 63 ≤ at + length piece.now
            → (bytes self.new ≡ bytes self.old) × NoMore (images self.old) (images self.new) }
        ensures told_stays { is_some (bytes self.new) ≡ is_some (bytes self.old) }
        ensures name_stays { opened_as self.new ≡ opened_as self.old }
        ensures time { Elapses (clock self.old) (clock self.new) (since self.old) (since self.new)
            (images self.new) }
        ensures count { CountsFaults (Self.faults self.old) (Self.faults self.new) result };

    /// Truncates the bytes to the first `len`.
    ///
    /// # Errors
    ///
    /// Returns `Failed` and counts an error if the bytes may not be truncated.
    fn cut(&mut self, len: u64) -> Result<(), Failed>
        requires inside { IfSome (bytes self.old) (λ b. len ≤ length b) }
        ensures shorter { OnOk result (bytes self.new ≡ option_map (take len) (bytes self.old)) }
        ensures torn { Follows (CutShort len) (images self.old) (images self.new) }
        ensures told_stays { is_some (bytes self.new) ≡ is_some (bytes self.old) }
        ensures name_stays { opened_as self.new ≡ opened_as self.old }
        ensures time { Elapses (clock self.old) (clock self.new) (since self.old) (since self.new)
            (images self.new) }
        ensures count { CountsFaults (Self.faults self.old) (Self.faults self.new) result };

    /// Returns once all changes are safe from a crash.
    ///
    /// # Errors
    ///
    /// Returns `Failed` and counts an error if some of them may not be safe.
    fn sync(&mut self) -> Result<(), Failed>
        ensures safe { OnOk result (Only (bytes self.new) (images self.new)) }
        ensures bytes_stay { OnOk result (bytes self.new ≡ bytes self.old) }
        ensures images_stay { NoMore (images self.old) (images self.new) }
        ensures told_stays { is_some (bytes self.new) ≡ is_some (bytes self.old) }
        ensures name_stays { opened_as self.new ≡ opened_as self.old }
        ensures time { Elapses (clock self.old) (clock self.new) (since self.old) (since self.new)
            (images self.new) }
        ensures count { CountsFaults (Self.faults self.old) (Self.faults self.new) result };

    // The bytes are an image, also after `Failed`.
    ghost bytes_count: { (disk : Self) (told : List ℕ) → bytes disk ≡ Some told → images disk told };

    ghost images_are_short: { (disk : Self) (image : List ℕ) → images disk image → length image < 2 ^ 63 };

    // What a crash now may leave is among what a crash since an earlier time might have left.
    ghost now_counts: { (disk : Self) (time : ℕ) (image : List ℕ) → time ≤ clock disk → images disk image
        → since disk time image };

    // Since now there is nothing else.
    ghost now_alone: { (disk : Self) (image : List ℕ) → since disk (clock disk) image → images disk image };
}

//! What bytes are written to.
ghost use Rattle.std.specs.Prelude.{◌≡◌, ℕ, ◌+◌, ◌<◌, ◌≤◌, List, length, IsOk, IfOk, OnOk, OnErr, Option};
ghost use Rattle.std.specs.Io.KnownBytes.{Appends, WriteAppends};
ghost use Rattle.outside_net.specs.Counts.{CountsFaults};
ghost use Rattle.outside_net.specs.Told.{AppendsPrefix};

use outside_disks::{Failed, Faulted};

/// A stream of bytes to write.
pub trait Sink: Faulted {
    // The bytes written so far, if known.
    ghost taken: { Self → Option (List ℕ) };

    // Known bytes that a write leaves unchanged: of a connection, those that are left to read.
    ghost beside_taken: { Self → Option (List ℕ) };

    // The guaranteed capacity: no write within it fails. 0 if nothing is known.
    ghost sure_room: { Self → ℕ } = { λ _. 0 };

    /// Writes a prefix of `piece`, and returns its length, at least 1. Counts an error if nothing can be written.
    fn write(&mut self, piece: &[u8]) -> Result<usize, Failed>
        requires { 0 < length piece.now }
        ensures some { IfOk result (λ n. 0 < n) }
        ensures within { IfOk result (λ n. n ≤ length piece.now) }
        ensures taken_grows { WriteAppends (taken self.old) (taken self.new) result piece.now }
        ensures sure { 0 < sure_room self.old → IsOk result }
        ensures sure_stays { IfOk result (λ n. sure_room self.old ≤ sure_room self.new + n) }
        ensures beside { beside_taken self.new ≡ beside_taken self.old }
        ensures count { CountsFaults (Self.faults self.old) (Self.faults self.new) result };
}

/// Writes all the bytes, in as many calls as the sink needs. Does not allocate. After `Failed` a prefix of the bytes
/// may have been written.
pub fn put_all<W: Sink>(sink: &mut W, bytes: &[u8]) -> Result<(), Failed>
    ensures all { OnOk result (Appends (W.taken sink.old) (W.taken sink.new) bytes.now) }
    ensures sure { length bytes.now ≤ W.sure_room sink.old → IsOk result }
    ensures sure_stays { OnOk result
        (W.sure_room sink.old ≤ W.sure_room sink.new + length bytes.now) }
    ensures part { OnErr result (AppendsPrefix (W.taken sink.old) (W.taken sink.new) bytes.now) }
    ensures beside { W.beside_taken sink.new ≡ W.beside_taken sink.old }
    ensures count { CountsFaults (W.faults sink.old) (W.faults sink.new) result }
{
    let mut done = 0;
    while done < bytes.len() {
        let (_, rest) = bytes.split_at(done);
        done += sink.write(rest)?;
    }
    Ok(())
}

//! What bytes are read from.
ghost use Rattle.std.specs.Prelude.{◌≡◌, ℕ, ◌<◌, List, length, IfOk, Option};
ghost use Rattle.std.specs.Io.{ReadsAtMost};
ghost use Rattle.std.specs.Io.KnownBytes.{ReadConsumes};
ghost use Rattle.outside_net.specs.Counts.{CountsFaults};
ghost use Rattle.outside_net.specs.Told.{AnswersEnd};

use outside_disks::{Failed, Faulted};

/// A stream of bytes to read.
pub trait Source: Faulted {
    // The bytes that reads will return, if known.
    ghost left: { Self → Option (List ℕ) };

    // Known bytes that a read leaves unchanged: of a connection, those that were written.
    ghost beside_left: { Self → Option (List ℕ) };

    /// Reads into the start of `room`, and returns the number of bytes read; `Ok(0)` is the end of the input.
    fn read(&mut self, room: &mut [u8]) -> Result<usize, Failed>
        requires { 0 < length room.old }
        ensures within { ReadsAtMost result room.new }
        ensures moved { ReadConsumes (left self.old) (left self.new) result room.new }
        ensures end { IfOk result (λ n. AnswersEnd (left self.old) n) }
        ensures beside { beside_left self.new ≡ beside_left self.old }
        ensures count { CountsFaults (Self.faults self.old) (Self.faults self.new) result };
}

//! What can be both read and written.
ghost use Rattle.std.specs.Prelude.{◌≡◌};
ghost use Rattle.outside_net.specs.Counts.{CountsFaults};

use crate::sink::Sink;
use crate::source::Source;
use outside_disks::Failed;

/// A connection, with one error counter for both directions.
pub trait Link: Source + Sink {
    /// Checks whether the peer is still there. Does not wait, and reads and writes no byte.
    ///
    /// # Errors
    ///
    /// Returns `Failed` and counts an error if the peer has left. If the peer sent bytes before it left, this is seen
    /// only after they are read.
    fn probe(&mut self) -> Result<(), Failed>
        ensures taken { Self.taken self.new ≡ Self.taken self.old }
        ensures beside { Self.beside_taken self.new ≡ Self.beside_taken self.old }
        ensures count { CountsFaults (Self.faults self.old) (Self.faults self.new) result };

    ghost read_leaves_taken: { (link : Self) → Self.beside_left link ≡ Self.taken link };

    ghost write_leaves_left: { (link : Self) → Self.beside_taken link ≡ Self.left link };
}

//! The files that were closed, in memory that each disk brings with it.
ghost use Rattle.std.specs.Prelude.{◌≡◌, ◌∷◌, [], unwrap_or};

use std::mem;

/// The names and the bytes of closed files; the one that was closed last comes first.
pub(crate) enum ClosedFiles {
    Empty,
    File {
        name: Vec<u8>,
        bytes: Vec<u8>,
        earlier: Box<ClosedFiles>,
    },
}

impl Drop for ClosedFiles {
    fn drop(mut self) {
        loop {
            match self {
                ClosedFiles::Empty => return,
                ClosedFiles::File {
                    name: _name,
                    bytes: _bytes,
                    earlier,
                } => self = Box::into_inner(earlier),
            }
        }
    }
}

impl ClosedFiles {
    ghost use Rattle.std.specs.FinMap as finite;
    ghost use Rattle.outside_disks.specs.Closed.{entries_of, contents_of};

    /// Puts a file first. The others move into `room`, so nothing is allocated.
    pub(crate) fn push(&mut self, name: Vec<u8>, bytes: Vec<u8>, mut room: Box<ClosedFiles>)
        ensures { entries_of self.new ≡ (name.items, bytes.items) ∷ entries_of self.old }
    {
        *room = mem::replace(self, ClosedFiles::Empty);
        *self = ClosedFiles::File {
            name,
            bytes,
            earlier: room,
        };
    }

    /// Returns the bytes of a name; none if no file was closed under it.
    pub(crate) fn bytes_of(&self, name: &[u8]) -> &[u8]
        ensures { result.now ≡ unwrap_or (finite.get (contents_of self.now) name.now) [] }
    {
        let mut rest = self;
        while let ClosedFiles::File {
            name: kept,
            bytes,
            earlier,
        } = rest
        {
            if name == kept.as_slice() {
                return bytes.as_slice();
            }
            rest = earlier;
        }
        &[]
    }
}

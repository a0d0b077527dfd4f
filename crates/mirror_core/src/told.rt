//! What was read of a listing.

use dmap_tags::Tag;

// The next expected member of a listing.
#[derive(Clone, Copy, PartialEq, Eq)]
pub(crate) enum Due {
    Status,
    Kind,
    Revision,
    Total,
    Listed,
    Rows,
    Gone,
    Nothing,
}

/// The contents of a listing, as read.
#[derive(Clone, Copy)]
pub struct ToldRef<'a> {
    pub is_delta: bool,
    pub revision: u32,
    /// The number of rows before the range.
    pub total: u32,
    /// The tags of the listed rows.
    pub rows: &'a [Tag],
    /// The tags of the deleted keys.
    pub gone: &'a [Tag],
}

impl<'a> ToldRef<'a> {
    ghost use Rattle.std.specs.Prelude.{◌≡◌};
    ghost use Rattle.mirror_core.specs.Reading.{untold};
    ghost use Rattle.mirror_core.specs.ToldSeen.{told_of};

    pub(crate) fn new() -> ToldRef<'a>
        ensures { told_of result ≡ untold }
    {
        ToldRef {
            is_delta: false,
            revision: 0,
            total: 0,
            rows: &[],
            gone: &[],
        }
    }
}

//! A mirror.

ghost use Rattle.std.specs.Prelude.{◌≡◌, ◌≤◌, ◌<◌, [], ℕ, length, Option, Err, IfOk, OnErr, option_map, slice_get};
ghost use Rattle.share_history.specs.Listings.{Listing};
ghost use Rattle.share_history.specs.Mirror.{mirror_look};
ghost use Rattle.mirror_core.specs.After.{after_body};
ghost use Rattle.mirror_core.specs.Bodies.{IsListing, IsNoListing};

use crate::merging::take_in;
use crate::reading::told_by;
use dmap_tags::Tag;
use item_model::{Look, Meta, Query, Range, Target};
use std::alloc::{AllocError, Global};
use std::marker::Model;
use thiserror::Error;

/// The contents of a mirror of one listing.
pub struct Mirror {
    alloc: Global,
    target: Target,
    query: Option<Query>,
    meta: Meta,
    revision: u32,
    // ascending by key
    rows: Vec<(u32, Tag)>,
}

impl Drop for Mirror {
    fn drop(self) {
        let Mirror {
            alloc: _,
            target: _,
            query: _,
            meta: _,
            revision: _,
            rows: _,
        } = self;
    }
}

impl Model for Mirror {
    ghost use Rattle.std.specs.Coded.{codes};
    ghost use Rattle.dmap_tags.specs.Cells.{tree_coded};
    ghost use Rattle.item_model.specs.QueryCells.{query_coded};
    ghost use Rattle.mirror_core.specs.Mirrored.{Mirrored};

    ghost Value = { Mirrored };

    ghost coded = { Prim.hlevel (codes, tree_coded, query_coded) };

    ghost use Rattle.share_history.specs.Keyed.{IsAscending};

    ghost view = { λ a. record { target = a.target; query = a.query; meta = a.meta; held = record { revision = a.revision; rows = a.rows.items } } };

    ghost invariant = { λ a. IsAscending a.rows.items };
}

/// What applying a listing did.
#[derive(Clone, Copy, Debug, PartialEq, Eq)]
pub struct Applied {
    /// The revision of the listing.
    pub revision: u32,
    pub delta: bool,
    /// How many rows the listing has.
    pub put: u64,
    /// How many keys the listing deletes.
    pub dropped: u64,
    /// How many rows the mirror then holds.
    pub rows: u64,
}

/// Errors of `apply`.
#[derive(Debug, Drop, PartialEq, Eq, Error)]
pub enum MirrorError {
    /// The tag is not a listing of the mirror's target. `index` is that of the first member that cannot continue one,
    /// counted from 0, or `None` for another tag.
    #[error("the tag is not a listing of the mirror's target")]
    NotListing { index: Option<u64> },
    /// The listing is older than the mirror.
    #[error("revision {told} is before revision {held}")]
    Backwards { held: u32, told: u32 },
    #[error("out of memory")]
    Memory,
}

impl Mirror {
    /// Returns a mirror that holds nothing. Does not allocate.
    pub fn new(alloc: Global, target: Target, query: Option<Query>, meta: Meta) -> Mirror
        ensures { result ≡ record {
          target = target;
          query = query;
          meta = meta;
          held
              = record { revision = 0; rows = [] };
        } }
    {
        Mirror {
            alloc,
            target,
            query,
            meta,
            revision: 0,
            rows: Vec::new(alloc),
        }
    }

    /// Returns the mirror's revision, 0 before the first listing.
    pub fn base(&self) -> u32
        ensures { result ≡ self.now.held.revision }
    {
        self.revision
    }

    pub fn target(&self) -> Target
        ensures { result ≡ self.now.target }
    {
        self.target
    }

    /// Returns the look of the next request.
    /// Returns `AllocError` if allocation fails.
    pub fn look(&self) -> Result<Look, AllocError>
        ensures { IfOk result (λ look. look
            ≡ mirror_look self.now.query self.now.meta self.now.held.revision) }
    {
        let meta = self.meta.copy()?;
        let query = copy_of(&self.query)?;
        Ok(Look {
            query,
            meta,
            base: self.revision,
            range: Range::All,
        })
    }

    pub fn len(&self) -> u64
        ensures { result ≡ length self.now.held.rows }
    {
        self.rows.len() as u64
    }

    /// Returns row `n` by ascending key, counted from 0, or `None` past the last.
    pub fn row(&self, n: u64) -> Option<(u32, &Tag)>
        ensures { option_map (λ row. (row.0, row.1.now)) result ≡ slice_get self.now.held.rows n }
    {
        match self.rows.get(n as usize) {
            Some(row) => Some((row.0, &row.1)),
            None => None,
        }
    }

    /// Applies the listing `body`. After an `Err` the mirror is unchanged.
    ///
    /// # Errors
    ///
    /// Returns `NotListing` if `body` is not a listing of the target, `Backwards` if it is older than the mirror, and
    /// `Memory` if allocation fails.
    pub fn apply(&mut self, body: &Tag) -> Result<Applied, MirrorError>
        ensures applied { IfOk result (λ applied. (listing : Listing)
            × IsListing self.old.target self.old.held.revision listing body.now
            × (self.old.held.revision ≤ listing.revision)
            × (self.new ≡ record { target = self.old.target; query = self.old.query; meta = self.old.meta; held = after_body self.old.target self.old.held body.now })
            × (applied ≡ record { revision = listing.revision; delta = listing.is_delta; put = length listing.rows; dropped = length listing.gone; rows = length self.new.held.rows })) }
        ensures no_listing { (index : Option ℕ) → (result ≡ Err (MirrorError.NotListing index))
            → IsNoListing self.old.target self.old.held.revision body.now index }
        ensures backwards { (held told : ℕ) → (result ≡ Err (MirrorError.Backwards held told))
            → (listing : Listing) × IsListing self.old.target self.old.held.revision listing
            body.now × (held ≡ self.old.held.revision) × (told ≡ listing.revision) × (told < held) }
        ensures unchanged { OnErr result (self.new ≡ self.old) }
    {
        let told = match told_by(self.target, self.revision, body) {
            Ok(told) => told,
            Err(error) => return Err(error),
        };
        match take_in(self.alloc, self.target, &mut self.rows, told) {
            Ok(()) => {}
            Err(_) => return Err(MirrorError::Memory),
        }
        self.revision = told.revision;
        Ok(Applied {
            revision: told.revision,
            delta: told.is_delta,
            put: told.rows.len() as u64,
            dropped: told.gone.len() as u64,
            rows: self.rows.len() as u64,
        })
    }
}

// Returns a copy of a query, if there is one.
fn copy_of(query: &Option<Query>) -> Result<Option<Query>, AllocError>
    ensures { IfOk result (λ copy. copy ≡ query.now) }
{
    match query {
        Some(query) => Ok(Some(query.copy()?)),
        None => Ok(None),
    }
}

//! The stores of a share together: its items, its lists, and the index of its items.

ghost use Rattle.std.specs.Prelude.{◌≡◌, ◌≤◌, ◌+◌, ◌++◌, ◌∷◌, [], ℕ, List, true, map, IfOk, OnOk, OnErr};
ghost use Rattle.item_model.specs.declared.changes.Edit.{Edit};
ghost use Rattle.item_model.specs.Valid.{AreValid};
ghost use Rattle.share_history.specs.Histories.{edits, revision};
ghost use Rattle.share_history.specs.Keyed.{ascending};
ghost use Rattle.share_history.specs.LastSaid.{item_at};
ghost use Rattle.item_store.specs.Stands as item_store;
ghost use Rattle.item_store.specs.Stands.{named_items};
ghost use Rattle.playlist_store.specs.Stands as playlist_store;
ghost use Rattle.playlist_store.specs.Tests.{tests_of};
ghost use Rattle.prop_index.specs.Index as prop_index;
ghost use Rattle.share_history.specs.Rows.{library};
ghost use Rattle.share_core.specs.Short.{HasShortTexts};

use crate::changes::{changes_to, rows_before};
use item_model::{Edit, SharedRow};
use item_store::ItemStore;
use playlist_store::PlaylistStore;
use prop_index::PropIndex;
use song_query::Steps;
use std::alloc::{AllocError, Global};
use std::sync::ledger::Ledger;

/// The stores that answers are computed from.
#[derive(Drop)]
pub(crate) struct Stores {
    pub items: ItemStore,
    pub lists: PlaylistStore,
    pub index: PropIndex,
}

impl Stores {
    ghost use Rattle.share_core.specs.Held.{StandFor};
    ghost use Rattle.share_core.specs.Followed.{IsAsBefore, CanFollow};

    /// Returns empty stores. Does not allocate.
    pub(crate) fn open(alloc: Global, keep: u32) -> Stores
        requires some { 1 ≤ keep }
        requires few { keep ≤ 65536 }
        ensures items_keep { result.items.keep ≡ keep }
        ensures lists_keep { result.lists.keep ≡ keep }
        ensures stand { StandFor [] result }
    {
        Stores {
            items: ItemStore::open(alloc, keep),
            lists: PlaylistStore::open(alloc, keep),
            index: PropIndex::new(alloc),
        }
    }

    /// Applies a batch, which makes revision `next`. On `Err` the stores represent the same batches as before.
    pub(crate) fn apply<L: Ledger>(
        &mut self,
        alloc: Global,
        batch: &[Edit],
        next: u32,
        steps: &mut Steps<L>,
    ) -> Result<(), AllocError>
        requires stand { (bs : List (List Edit)) × StandFor bs self.old × (next ≡ revision bs + 1) }
        requires valid { AreValid batch.now }
        ensures stand { OnOk result ((bs : List (List Edit)) → StandFor bs self.old
            → StandFor (bs ++ batch.now ∷ []) self.new) }
        ensures unchanged { OnErr result ((bs : List (List Edit)) → StandFor bs self.old
            → StandFor bs self.new) }
        ensures items_keep { self.new.items.keep ≡ self.old.items.keep }
        ensures lists_keep { self.new.lists.keep ≡ self.old.lists.keep }
        ensures cost { (bs : List (List Edit)) → StandFor bs self.old
            → steps.new ≤ steps.old + tests_of (edits (bs ++ batch.now ∷ [])) batch.now }
    {
        let before = rows_before(alloc, &self.items, batch)?;
        self.items.apply(batch, next)?;
        match self.follow(alloc, batch, next, before.as_slice(), steps) {
            Ok(()) => Ok(()),
            Err(error) => {
                self.items.undo();
                Err(error)
            }
        }
    }

    // Applies `batch` to the lists and the index, after the items have applied it. `before` are the rows of the items
    // that the batch names, as they were before it.
    fn follow<L: Ledger>(
        &mut self,
        alloc: Global,
        batch: &[Edit],
        next: u32,
        before: &[(u32, Option<SharedRow>)],
        steps: &mut Steps<L>,
    ) -> Result<(), AllocError>
        requires next { next ≡ self.old.lists.revision + 1 }
        requires valid { AreValid batch.now }
        ensures items { self.new.items ≡ self.old.items }
        ensures stand { OnOk result ((bs : List (List Edit))
            → CanFollow bs batch.now before.now self.old
            → StandFor (bs ++ batch.now ∷ []) self.new) }
        ensures unchanged { OnErr result ((bs : List (List Edit))
            → CanFollow bs batch.now before.now self.old → IsAsBefore bs self.new) }
        ensures keep { self.new.lists.keep ≡ self.old.lists.keep }
        ensures cost { (bs : List (List Edit)) → CanFollow bs batch.now before.now self.old
            → steps.new ≤ steps.old + tests_of (edits (bs ++ batch.now ∷ [])) batch.now }
    {
        let changes = changes_to(alloc, &self.items, before)?;
        self.lists.apply(batch, next, &self.items, steps)?;
        match self.index.apply_all(changes.as_slice()) {
            Ok(()) => Ok(()),
            Err(error) => {
                self.lists.undo();
                Err(error)
            }
        }
    }
}

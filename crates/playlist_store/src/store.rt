//! A store of lists.

ghost use Rattle.std.specs.Prelude.{◌≡◌, ◌≤◌, ◌+◌, ◌-◌, ◌++◌, ◌∷◌, [], List, true, false, OnOk, OnErr};
ghost use Rattle.item_model.specs.declared.changes.Edit.{Edit};
ghost use Rattle.item_model.specs.Valid.{AreValid};
ghost use Rattle.item_store.specs.Stands as item_stands;
ghost use Rattle.item_store.specs.Stands.{floor_of};
ghost use Rattle.share_history.specs.Histories.{edits};
ghost use Rattle.playlist_store.specs.Tests.{tests_of};
ghost use Rattle.playlist_store.specs.Stands.{StandsFor, IsUnchanged};

use crate::batches::{take_back_batch, take_in_batch};
use crate::kept::ListHistory;
use crate::named::Named;
use crate::prune::prune_to;
use item_model::Edit;
use item_store::ItemStore;
use share_history::FIRST_REVISION;
use song_query::Steps;
use std::alloc::{AllocError, Global};
use std::collections::{BTreeMap, VecDeque};
use std::marker::Model;
use std::sync::ledger::Ledger;

/// The lists after batches of edits, with their earlier versions in the window.
pub struct PlaylistStore {
    pub(crate) alloc: Global,
    pub(crate) keep: u32,
    pub(crate) revision: u32,
    // the first revision that `lists` and `named` cover
    pub(crate) low: u32,
    pub(crate) can_undo: bool,
    // what each batch after `low` names, in order
    pub(crate) named: VecDeque<Named>,
    pub(crate) lists: BTreeMap<u32, ListHistory>,
}

impl Drop for PlaylistStore {
    fn drop(self) {
        let PlaylistStore {
            alloc: _,
            keep: _,
            revision: _,
            low: _,
            can_undo: _,
            named: _,
            lists: _,
        } = self;
    }
}

impl Model for PlaylistStore {
    ghost use Rattle.std.specs.Coded.{codes};
    ghost use Rattle.item_model.specs.QueryCells.{query_coded};
    ghost use Rattle.playlist_store.specs.Store.{Store};

    ghost Value = { Store };

    ghost coded = { Prim.hlevel (codes, query_coded) };

    ghost view = { λ a. record { keep = a.keep; revision = a.revision; low = a.low; can_undo = a.can_undo; named = a.named.items; lists = a.lists.entries } };
}

impl PlaylistStore {
    /// Returns a store without batches, which keeps `keep` revisions back, and one more while the last batch can be
    /// reverted. Does not allocate.
    pub fn open(alloc: Global, keep: u32) -> PlaylistStore
        requires some { 1 ≤ keep }
        requires few { keep ≤ 65536 }
        ensures keep { result.keep ≡ keep }
        ensures stands { StandsFor [] result }
    {
        PlaylistStore {
            alloc,
            keep,
            revision: FIRST_REVISION,
            low: FIRST_REVISION,
            can_undo: false,
            named: VecDeque::new(alloc),
            lists: BTreeMap::new(alloc),
        }
    }

    /// Applies `batch`, which makes the next revision. `items` are those after the batch. A rule is evaluated only
    /// for an item that the batch puts or drops, or if the batch puts the rule; `steps` counts the evaluations.
    /// Returns `AllocError` if allocation fails; the store then returns what it did before.
    pub fn apply<L: Ledger>(
        &mut self,
        batch: &[Edit],
        revision: u32,
        items: &ItemStore,
        steps: &mut Steps<L>,
    ) -> Result<(), AllocError>
        requires next { revision ≡ self.old.revision + 1 }
        requires valid { AreValid batch.now }
        ensures stands { OnOk result ((bs : List (List Edit)) → StandsFor bs self.old
            → item_stands.StandsFor (bs ++ batch.now ∷ []) items.now
            → StandsFor (bs ++ batch.now ∷ []) self.new) }
        ensures undo { OnOk result (self.new.can_undo ≡ true) }
        ensures keep { self.new.keep ≡ self.old.keep }
        ensures unchanged { OnErr result (IsUnchanged self.old self.new) }
        ensures cost { (bs : List (List Edit)) → StandsFor bs self.old
            → item_stands.StandsFor (bs ++ batch.now ∷ []) items.now
            → steps.new ≤ steps.old + tests_of (edits (bs ++ batch.now ∷ [])) batch.now }
    {
        let taken = take_in_batch(
            self.alloc,
            &mut self.lists,
            &mut self.named,
            batch,
            revision,
            items,
            steps,
        );
        match taken {
            Ok(()) => {
                // versions that the revision before can read stay, so that the batch can be reverted
                let low = floor(self.keep, self.revision);
                prune_to(
                    self.alloc,
                    &mut self.lists,
                    &mut self.named,
                    self.low,
                    low,
                    self.revision,
                );
                self.low = low;
                self.revision = revision;
                self.can_undo = true;
                Ok(())
            }
            Err(error) => Err(error),
        }
    }

    /// Reverts the last batch. Does not allocate. It can be called once after an `apply` that returned `Ok`.
    pub fn undo(&mut self)
        requires { self.old.can_undo ≡ true }
        ensures stands { (bs : List (List Edit)) (batch : List Edit)
            → StandsFor (bs ++ batch ∷ []) self.old → StandsFor bs self.new }
        ensures keep { self.new.keep ≡ self.old.keep }
        ensures once { self.new.can_undo ≡ false }
    {
        take_back_batch(&mut self.lists, &mut self.named, self.revision);
        self.revision = self.revision.saturating_sub(1);
        self.can_undo = false;
    }

    pub fn revision(&self) -> u32
        ensures { result ≡ self.now.revision }
    {
        self.revision
    }

    /// Returns the least base that `changed_since` accepts.
    pub fn floor(&self) -> u32
        ensures { result ≡ floor_of self.now.keep self.now.revision }
    {
        floor(self.keep, self.revision)
    }
}

// Returns the least base that `keep` allows at `revision`.
pub(crate) fn floor(keep: u32, revision: u32) -> u32
    ensures { result ≡ floor_of keep revision }
{
    revision.saturating_sub(keep).max(FIRST_REVISION)
}

//! A store of items.

ghost use Rattle.std.specs.Prelude.{◌≡◌, ◌≤◌, ◌+◌, ◌-◌, ◌++◌, ◌∷◌, [], List, true, false, length, IfOk, OnOk, OnErr, option_copied};
ghost use Rattle.std.specs.Map.{keys_of};
ghost use Rattle.item_model.specs.Valid.{AreValid};
ghost use Rattle.item_model.specs.declared.request.Target.TheVariants.{Items};
ghost use Rattle.share_history.specs.Histories.{edits, up_to};
ghost use Rattle.share_history.specs.Kept.{touched};
ghost use Rattle.share_history.specs.LastSaid.{item_at};
ghost use Rattle.share_history.specs.Rows.{library};
ghost use Rattle.item_store.specs.Stands.{floor_of, StandsFor, IsUnchanged};

use crate::batches::{ids_after, listed, prune_to, take_back_batch, take_in_batch};
use crate::changes::changes_of;
use item_model::{Edit, Row, SharedRow};
use key_versions::Versions;
use row_sheets::RowSheets;
use share_history::FIRST_REVISION;
use std::alloc::{AllocError, Global};
use std::collections::VecDeque;
use std::marker::Model;
use std::mem;

/// The items that batches of edits leave, with what they were as far back as is kept.
pub struct ItemStore {
    alloc: Global,
    keep: u32,
    revision: u32,
    // the least revision that `held` and `named` reach back to
    low: u32,
    can_undo: bool,
    count: u32,
    count_before: u32,
    // the ids that each batch after `low` put or dropped, in order
    named: VecDeque<Vec<u32>>,
    held: Versions<SharedRow>,
    // the rows of all items, and what they were before the last batch
    present: RowSheets,
    before: RowSheets,
}

impl Drop for ItemStore {
    fn drop(self) {
        let ItemStore {
            alloc: _,
            keep: _,
            revision: _,
            low: _,
            can_undo: _,
            count: _,
            count_before: _,
            named: _,
            held: _,
            present: _,
            before: _,
        } = self;
    }
}

impl Model for ItemStore {
    ghost use Rattle.item_store.specs.Store.{Store};

    ghost Value = { Store };

    ghost use Rattle.std.specs.Prelude.{map};

    ghost view = { λ a. record { keep = a.keep; revision = a.revision; low = a.low; can_undo = a.can_undo; count = a.count; count_before = a.count_before; named = map (λ v. v.items) a.named.items; versions = a.held; present = a.present; before = a.before } };
}

impl ItemStore {
    /// Returns a store without batches, which keeps `keep` revisions back, and one more while the last batch can be
    /// reverted. Does not allocate.
    pub fn open(alloc: Global, keep: u32) -> ItemStore
        requires some { 1 ≤ keep }
        requires few { keep ≤ 65536 }
        ensures keep { result.keep ≡ keep }
        ensures stands { StandsFor [] result }
    {
        ItemStore {
            alloc,
            keep,
            revision: FIRST_REVISION,
            low: FIRST_REVISION,
            can_undo: false,
            count: 0,
            count_before: 0,
            named: VecDeque::new(alloc),
            held: Versions::new(alloc),
            present: RowSheets::new(alloc),
            before: RowSheets::new(alloc),
        }
    }

    /// Applies a batch, which makes the next revision. After an `Err` the store is unchanged.
    pub fn apply(&mut self, edits: &[Edit], revision: u32) -> Result<(), AllocError>
        requires next { revision ≡ self.old.revision + 1 }
        requires valid { AreValid edits.now }
        ensures stands { OnOk result ((bs : List (List Edit)) → StandsFor bs self.old
            → StandsFor (bs ++ edits.now ∷ []) self.new) }
        ensures undo { OnOk result (self.new.can_undo ≡ true) }
        ensures keep { self.new.keep ≡ self.old.keep }
        ensures unchanged { OnErr result (IsUnchanged self.old self.new) }
    {
        let changes = changes_of(self.alloc, edits)?;
        let present = self.present.with_changes(changes.as_slice())?;
        self.take_in(edits, revision, present)
    }

    // Applies a batch that leaves these rows.
    fn take_in(
        &mut self,
        batch: &[Edit],
        revision: u32,
        present: RowSheets,
    ) -> Result<(), AllocError>
        requires next { revision ≡ self.old.revision + 1 }
        requires valid { AreValid batch.now }
        requires present { (bs : List (List Edit)) → StandsFor bs self.old
            → present ≡ library (edits (bs ++ batch.now ∷ [])) }
        ensures stands { OnOk result ((bs : List (List Edit)) → StandsFor bs self.old
            → StandsFor (bs ++ batch.now ∷ []) self.new) }
        ensures undo { OnOk result (self.new.can_undo ≡ true) }
        ensures keep { self.new.keep ≡ self.old.keep }
        ensures unchanged { OnErr result (IsUnchanged self.old self.new) }
    {
        let taken = take_in_batch(
            self.alloc,
            &mut self.held,
            &mut self.named,
            self.count,
            batch,
            revision,
        );
        match taken {
            Ok(count) => {
                // what was is kept as the revision before has it, so that the batch can be reverted
                let low = floor(self.keep, self.revision);
                prune_to(&mut self.held, &mut self.named, self.low, low);
                self.low = low;
                self.count_before = self.count;
                self.count = count;
                turn(&mut self.present, &mut self.before, present);
                self.revision = revision;
                self.can_undo = true;
                Ok(())
            }
            Err(error) => Err(error),
        }
    }

    /// Reverts the last batch, once after an `apply` that succeeded. Does not allocate.
    pub fn undo(&mut self)
        requires { self.old.can_undo ≡ true }
        ensures stands { (bs : List (List Edit)) (batch : List Edit)
            → StandsFor (bs ++ batch ∷ []) self.old → StandsFor bs self.new }
        ensures keep { self.new.keep ≡ self.old.keep }
        ensures once { self.new.can_undo ≡ false }
    {
        take_back_batch(&mut self.held, &mut self.named, self.revision);
        self.count = self.count_before;
        turn_back(self.alloc, &mut self.present, &mut self.before);
        self.revision = self.revision.saturating_sub(1);
        self.can_undo = false;
    }

    /// Returns the item of an id.
    pub fn get(&self, id: u32) -> Option<&Row>
        ensures { (bs : List (List Edit)) → StandsFor bs self.now
            → option_copied result ≡ item_at (edits bs) id }
    {
        match self.held.newest(id) {
            Some(shared) => Some(shared.row()),
            None => None,
        }
    }

    /// Returns the item of an id as a further owner of it.
    pub fn shared(&self, id: u32) -> Result<Option<SharedRow>, AllocError>
        ensures { IfOk result (λ row. (bs : List (List Edit)) → StandsFor bs self.now
            → row ≡ item_at (edits bs) id) }
    {
        match self.held.newest(id) {
            Some(shared) => Ok(Some(shared.share()?)),
            None => Ok(None),
        }
    }

    /// Returns the item that an id had at a revision of the window.
    pub fn version_at(&self, id: u32, base: u32) -> Option<&Row>
        requires from { floor_of self.now.keep self.now.revision ≤ base }
        requires to { base ≤ self.now.revision }
        ensures { (bs : List (List Edit)) → StandsFor bs self.now
            → option_copied result ≡ item_at (edits (up_to bs base)) id }
    {
        match self.held.value_at(id, base) {
            Some(shared) => Some(shared.row()),
            None => None,
        }
    }

    /// Returns the number of items.
    pub fn count(&self) -> u32
        ensures { (bs : List (List Edit)) → StandsFor bs self.now
            → result ≡ length (library (edits bs)) }
    {
        self.count
    }

    pub fn revision(&self) -> u32
        ensures { result ≡ self.now.revision }
    {
        self.revision
    }

    /// Returns the lowest base that `changed_since` takes.
    pub fn floor(&self) -> u32
        ensures { result ≡ floor_of self.now.keep self.now.revision }
    {
        floor(self.keep, self.revision)
    }

    /// Returns all items by their ids.
    pub fn rows(&self) -> &RowSheets
        ensures { (bs : List (List Edit)) → StandsFor bs self.now
            → result.now ≡ library (edits bs) }
    {
        &self.present
    }

    /// Returns all items as a further owner of them. Copies a pointer for each sheet, and reads no row.
    pub fn sheets(&self) -> Result<RowSheets, AllocError>
        ensures { IfOk result (λ rows. (bs : List (List Edit)) → StandsFor bs self.now
            → rows ≡ library (edits bs)) }
    {
        self.present.share()
    }

    /// Returns the ids of all items, ascending.
    pub fn ids(&self) -> Result<Vec<u32>, AllocError>
        ensures { IfOk result (λ ids. (bs : List (List Edit)) → StandsFor bs self.now
            → ids.items ≡ keys_of (library (edits bs))) }
    {
        self.held.keys()
    }

    /// Returns the ids that batches after `base` put or drop as items, ascending, each once.
    pub fn changed_since(&self, base: u32) -> Result<Vec<u32>, AllocError>
        requires from { floor_of self.now.keep self.now.revision ≤ base }
        requires to { base ≤ self.now.revision }
        ensures { IfOk result (λ ids. (bs : List (List Edit)) → StandsFor bs self.now
            → ids.items ≡ touched bs Items base) }
    {
        let passed = base.saturating_sub(self.low) as usize;
        let ids = match ids_after(self.alloc, &self.named, passed) {
            Ok(ids) => ids,
            Err(error) => return Err(error),
        };
        listed(self.alloc, &ids)
    }
}

// Makes these rows the present ones, and those that were present the ones before.
fn turn(present: &mut RowSheets, before: &mut RowSheets, rows: RowSheets)
    ensures present { present.new ≡ rows }
    ensures before { before.new ≡ present.old }
{
    *before = mem::replace(present, rows);
}

// Makes the rows before the present ones, and leaves none before them.
fn turn_back(alloc: Global, present: &mut RowSheets, before: &mut RowSheets)
    ensures { present.new ≡ before.old }
{
    *present = mem::replace(before, RowSheets::new(alloc));
}

// Returns the lowest base inside a window of `keep` revisions.
fn floor(keep: u32, revision: u32) -> u32
    ensures { result ≡ floor_of keep revision }
{
    revision.saturating_sub(keep).max(FIRST_REVISION)
}

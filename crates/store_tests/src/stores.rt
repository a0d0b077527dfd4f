//! The stores of a share's items and lists after a few batches.

ghost use Rattle.std.specs.Prelude.{◌≡◌, ◌<◌, ◌≤◌, ◌+◌, length, true, IfOk};
ghost use Rattle.item_model.specs.Valid.{AreValid};
ghost use Rattle.share_listings.specs.Answers.{HaveEdits, HaveFew};

use crate::batches::batch_of;
use item_model::Edit;
use item_store::ItemStore;
use playlist_store::PlaylistStore;
use song_query::Steps;
use std::alloc::{AllocError, Global};
use std::marker::Brand;
use std::sync::ledger::{Blank, Ledger};

#[derive(Drop)]
pub(crate) struct Stores {
    pub(crate) items: ItemStore,
    pub(crate) lists: PlaylistStore,
}

#[tactic(auto, using(share_listings::proofs::Samples::none_in_both))]
fn opened(alloc: Global, keep: u32) -> Stores
    requires some { 1 ≤ keep }
    requires few { keep ≤ 65536 }
    ensures { HaveEdits 0 result.items result.lists }
{
    Stores {
        items: ItemStore::open(alloc, keep),
        lists: PlaylistStore::open(alloc, keep),
    }
}

/// Applies a batch of at most six edits to both stores, as the next revision.
fn next_by<L: Ledger>(
    blank: Blank,
    mut stores: Stores,
    most: usize,
    edits: &[Edit],
) -> Result<Stores, AllocError>
    requires name { blank.name ≡ L.name }
    requires parts { blank.parts ≡ L.parts }
    requires any { 0 < blank.parts }
    requires few { HaveEdits most stores.items stores.lists }
    requires valid { AreValid edits.now }
    requires six { length edits.now ≤ 6 }
    ensures few { IfOk result (λ stores. HaveEdits (most + 6) stores.items stores.lists) }
    ensures undo_items { IfOk result (λ stores. stores.items.can_undo ≡ true) }
    ensures undo_lists { IfOk result (λ stores. stores.lists.can_undo ≡ true) }
{
    let Some(revision) = stores.items.revision().checked_add(1) else {
        return Err(AllocError);
    };
    let mut steps = Steps::<L>::open(blank);
    stores.items.apply(edits, revision)?;
    stores
        .lists
        .apply(edits, revision, &stores.items, &mut steps)?;
    Ok(stores)
}

fn next(alloc: Global, stores: Stores, most: usize, records: &str) -> Result<Stores, AllocError>
    requires few { HaveEdits most stores.items stores.lists }
    ensures few { IfOk result (λ stores. HaveEdits (most + 6) stores.items stores.lists) }
    ensures undo_items { IfOk result (λ stores. stores.items.can_undo ≡ true) }
    ensures undo_lists { IfOk result (λ stores. stores.lists.can_undo ≡ true) }
{
    let batch = batch_of(alloc, records)?;
    let edits = batch.edits.as_slice();
    if edits.len() > 6 {
        return Err(AllocError);
    }
    next_by::<Brand>(Blank::new(1), stores, most, edits)
}

/// Returns the stores after records, a batch each, and a last batch, which can be undone. They keep 16 revisions.
#[tactic(auto, using(share_listings::proofs::Samples::still_few_in_both))]
pub(crate) fn after(alloc: Global, first: &[&'static str], last: &str) -> Result<Stores, AllocError>
    ensures few { IfOk result (λ stores. HaveFew stores.items stores.lists) }
    ensures undo_items { IfOk result (λ stores. stores.items.can_undo ≡ true) }
    ensures undo_lists { IfOk result (λ stores. stores.lists.can_undo ≡ true) }
{
    let mut stores = opened(alloc, 16);
    let mut most: usize = 0;
    for records in first {
        if most > 60 {
            return Err(AllocError);
        }
        stores = next(alloc, stores, most, records)?;
        most += 6;
    }
    next(alloc, stores, most, last)
}

/// Takes the last batch back.
pub(crate) fn undo(stores: &mut Stores)
    requires items { stores.old.items.can_undo ≡ true }
    requires lists { stores.old.lists.can_undo ≡ true }
{
    stores.items.undo();
    stores.lists.undo();
}

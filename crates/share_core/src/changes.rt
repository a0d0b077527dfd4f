//! The changes of items by a batch, as the index applies them.

ghost use Rattle.std.specs.Prelude.{◌≡◌, ◌++◌, ◌∷◌, [], List, map, fold, IfOk, IfSome, OnOk};
ghost use Rattle.std.specs.Ordering.{nat_cmp};
ghost use Rattle.std.specs.BTreeSet.{insert_key};
ghost use Rattle.std.specs.List.{AllByRecursion};
ghost use Rattle.item_model.specs.declared.changes.Edit.{Edit};
ghost use Rattle.item_store.specs.Stands.{StandsFor, items_in, named_items};
ghost use Rattle.share_history.specs.Histories.{edits};
ghost use Rattle.share_history.specs.Keyed.{ascending};
ghost use Rattle.share_history.specs.LastSaid.{item_at};
ghost use Rattle.share_core.specs.Short.{HasShortTexts};
ghost use Rattle.share_core.specs.Turned.{change_to, IsShortChange};

use crate::texts::texts_are_short;
use item_model::{Edit, SharedRow};
use item_store::ItemStore;
use prop_index::Change;
use std::alloc::{AllocError, Global};
use std::collections::BTreeSet;

fn put(ids: &mut BTreeSet<u32>, id: u32) -> Result<(), AllocError>
    ensures { OnOk result (ids.new.keys ≡ insert_key nat_cmp ids.old.keys id) }
{
    ids.insert(id)?;
    Ok(())
}

// Adds the id of the item that the edit puts or drops, if any.
fn put_named(ids: &mut BTreeSet<u32>, edit: &Edit) -> Result<(), AllocError>
    ensures { OnOk result (ids.new.keys
        ≡ fold (insert_key nat_cmp) ids.old.keys (items_in edit.now)) }
{
    match edit {
        Edit::PutItem { row } => put(ids, row.row().id),
        Edit::DropItem { id } => put(ids, *id),
        _ => Ok(()),
    }
}

#[tactic(auto, using(share_history::proofs::FoldFacts::folded_left))]
fn named_ids(alloc: Global, batch: &[Edit]) -> Result<BTreeSet<u32>, AllocError>
    ensures { IfOk result (λ ids. ids.keys ≡ ascending (named_items batch.now)) }
{
    let mut ids = BTreeSet::new(alloc);
    for edit in batch {
        put_named(&mut ids, edit)?;
    }
    Ok(ids)
}

/// Returns the rows before the batch of all items that it puts or drops, by ascending id.
pub(crate) fn rows_before(
    alloc: Global,
    items: &ItemStore,
    batch: &[Edit],
) -> Result<Vec<(u32, Option<SharedRow>)>, AllocError>
    ensures { IfOk result (λ before. (bs : List (List Edit)) → StandsFor bs items.now
        → before.items ≡ map (λ id. (id, item_at (edits bs) id)) (ascending (named_items batch.now))) }
{
    let ids = named_ids(alloc, batch)?;
    rows_of(alloc, items, &ids)
}

fn rows_of(
    alloc: Global,
    items: &ItemStore,
    ids: &BTreeSet<u32>,
) -> Result<Vec<(u32, Option<SharedRow>)>, AllocError>
    ensures { IfOk result (λ rows. (bs : List (List Edit)) → StandsFor bs items.now
        → rows.items ≡ map (λ id. (id, item_at (edits bs) id)) ids.now.keys) }
{
    let mut rows = Vec::new(alloc);
    for id in ids {
        push_row(&mut rows, items, *id)?;
    }
    Ok(rows)
}

fn push_row(
    rows: &mut Vec<(u32, Option<SharedRow>)>,
    items: &ItemStore,
    id: u32,
) -> Result<(), AllocError>
    ensures { OnOk result ((bs : List (List Edit)) → StandsFor bs items.now
        → rows.new.items ≡ rows.old.items ++ (id, item_at (edits bs) id) ∷ []) }
{
    rows.push((id, items.shared(id)?))?;
    Ok(())
}

fn shared(row: &Option<SharedRow>) -> Result<Option<SharedRow>, AllocError>
    ensures { IfOk result (λ own. own ≡ row.now) }
{
    match row {
        Some(row) => Ok(Some(row.share()?)),
        None => Ok(None),
    }
}

fn short(row: Option<SharedRow>) -> Option<SharedRow>
    ensures same { result ≡ row }
    ensures short { IfSome result HasShortTexts }
{
    match row {
        Some(row) => {
            texts_are_short(row.row());
            Some(row)
        }
        None => None,
    }
}

/// Returns the change of each item in `before` to its present row in `items`.
#[tactic(auto, using(share_history::proofs::FoldFacts::shown_next))]
pub(crate) fn changes_to(
    alloc: Global,
    items: &ItemStore,
    before: &[(u32, Option<SharedRow>)],
) -> Result<Vec<Change>, AllocError>
    ensures changes { IfOk result (λ changes. (bs : List (List Edit)) → StandsFor bs items.now
        → changes.items ≡ map (change_to (edits bs)) before.now) }
    ensures short { IfOk result (λ changes. AllByRecursion IsShortChange changes.items) }
{
    let mut changes = Vec::new(alloc);
    for row in before {
        push_change(&mut changes, items, row)?;
    }
    Ok(changes)
}

fn push_change(
    changes: &mut Vec<Change>,
    items: &ItemStore,
    before: &(u32, Option<SharedRow>),
) -> Result<(), AllocError>
    ensures changes { OnOk result ((bs : List (List Edit)) → StandsFor bs items.now
        → changes.new.items ≡ changes.old.items ++ change_to (edits bs) before.now ∷ []) }
    ensures short { OnOk result (AllByRecursion IsShortChange changes.old.items
        → AllByRecursion IsShortChange changes.new.items) }
{
    let old = shared(&before.1)?;
    let new = short(items.shared(before.0)?);
    changes.push(Change { old, new })?;
    Ok(())
}

//! The changes of a listing, by id.

ghost use Rattle.std.specs.Prelude.{◌≡◌, ◌∷◌, [], ℕ, None, Some, OnOk, IfOk, fold, map, is_none, is_some};
ghost use Rattle.std.specs.List.{position_from};
ghost use Rattle.std.specs.Map.{keys_of};
ghost use Rattle.mirror_core.specs.Reading.{key_of};
ghost use Rattle.mirror_core.specs.ToldSeen.{told_of};
ghost use Rattle.relayed_rows.specs.ReadRows.{row_of};
ghost use Rattle.relayed_rows.specs.Relays.{is_unread};
ghost use Rattle.relayed_rows.specs.Changes.{with_gone, with_row, rows_told, ids_cleared, changes_of};

use crate::rows::row_of;
use crate::untaken::Untaken;
use dmap_tags::Tag;
use item_model::{SharedRow, Target};
use mirror_core::{ToldRef, key_of};
use std::alloc::{AllocError, Global};
use std::collections::BTreeMap;

/// Rows by id.
pub(crate) type Rows = BTreeMap<u32, SharedRow>;

/// By id: `None` for a dropped row, the row for a listed one.
pub(crate) type Changes = BTreeMap<u32, Option<SharedRow>>;

/// Returns the changes that a listing makes to held rows.
pub(crate) fn changes(alloc: Global, held: &Rows, told: ToldRef<'_>) -> Result<Changes, Untaken>
    ensures made { IfOk result (λ changes. changes.entries
        ≡ changes_of held.now.entries (told_of told.entry)) }
    ensures read { OnOk result (position_from is_unread 0 told.entry.rows.now ≡ None) }
    ensures unread { (index : ℕ) → (result ≡ Err (Untaken.Row index))
        → position_from is_unread 0 told.entry.rows.now ≡ Some index }
{
    let mut changes = BTreeMap::new(alloc);
    clear_ids(&mut changes, held, told)?;
    put_rows(alloc, &mut changes, told.rows)?;
    Ok(changes)
}

// Drops every held id for a full listing, and the deleted ids for a delta.
fn clear_ids(changes: &mut Changes, held: &Rows, told: ToldRef<'_>) -> Result<(), AllocError>
    ensures { OnOk result (changes.new.entries
        ≡ fold with_gone changes.old.entries (ids_cleared held.now.entries (told_of told.entry))) }
{
    if told.is_delta {
        clear_deleted(changes, told.gone)
    } else {
        clear_held(changes, held)
    }
}

#[tactic(auto, using(mirror_core::proofs::TagFacts::folded_left))]
fn clear_deleted(changes: &mut Changes, keys: &[Tag]) -> Result<(), AllocError>
    ensures { OnOk result (changes.new.entries
        ≡ fold with_gone changes.old.entries (map (key_of Target.Items) keys.now)) }
{
    for key in keys {
        changes.insert(key_of(Target::Items, key), None)?;
    }
    Ok(())
}

fn clear_held(changes: &mut Changes, held: &Rows) -> Result<(), AllocError>
    ensures { OnOk result (changes.new.entries
        ≡ fold with_gone changes.old.entries (keys_of held.now.entries)) }
{
    for (id, _) in held {
        changes.insert(*id, None)?;
    }
    Ok(())
}

fn put_rows(alloc: Global, changes: &mut Changes, tags: &[Tag]) -> Result<(), Untaken>
    ensures put { OnOk result (changes.new.entries
        ≡ fold with_row changes.old.entries (rows_told tags.now)) }
    ensures read { OnOk result (position_from is_unread 0 tags.now ≡ None) }
    ensures unread { (index : ℕ) → (result ≡ Err (Untaken.Row index))
        → position_from is_unread 0 tags.now ≡ Some index }
{
    for (index, tag) in tags.iter().enumerate() {
        if !put_row(alloc, changes, tag)? {
            return Err(Untaken::Row {
                index: index as u64,
            });
        }
    }
    Ok(())
}

// Adds the row of `tag`. Returns whether the tag has one.
fn put_row(alloc: Global, changes: &mut Changes, tag: &Tag) -> Result<bool, AllocError>
    ensures put { OnOk result (changes.new.entries
        ≡ fold with_row changes.old.entries (rows_told (tag.now ∷ []))) }
    ensures has { IfOk result (λ has. has ≡ is_some (row_of tag.now)) }
{
    let Some(row) = row_of(alloc, tag)? else {
        return Ok(false);
    };
    changes.insert(row.id, Some(SharedRow::new(alloc, row)?))?;
    Ok(true)
}

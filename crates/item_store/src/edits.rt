//! Edits, as they change what a store keeps.

ghost use Rattle.std.specs.Prelude.{◌≡◌, ◌≤◌, ◌<◌, ◌+◌, ◌^◌, ◌++◌, ◌∷◌, [], ℕ, List, Some, false, nat_le, ◌==◌, ◌&&◌, is_some, option_to_list, IfOk, OnOk, OnErr, if◌then◌else◌};
ghost use Rattle.std.specs.List.{list_any};
ghost use Rattle.item_model.specs.Valid.{IsValid, AreValid};
ghost use Rattle.share_history.specs.Named.{names_item};
ghost use Rattle.item_store.specs.Stands.{items_in, named_items};
ghost use Rattle.key_versions.specs.Found.{newest_value};
ghost use Rattle.key_versions.specs.Held.{versions_at, value_at};
ghost use Rattle.item_store.specs.Changes.{AreItems};

use item_model::{Edit, SharedRow};
use key_versions::Versions;
use std::alloc::{AllocError, Global};

// The ids that edits put or drop as items, in order.
pub(crate) fn ids_of(alloc: Global, edits: &[Edit]) -> Result<Vec<u32>, AllocError>
    ensures { IfOk result (λ ids. ids.items ≡ named_items edits.now) }
{
    let mut ids = Vec::new(alloc);
    for edit in edits {
        if let Some(id) = id_of(edit) {
            ids.push(id)?;
        }
    }
    Ok(ids)
}

fn id_of(edit: &Edit) -> Option<u32>
    ensures { option_to_list result ≡ items_in edit.now }
{
    match edit {
        Edit::PutItem { row } => Some(row.row().id),
        Edit::DropItem { id } => Some(*id),
        _ => None,
    }
}

// Applies edits that make a revision. `count` is the number of items before; returns the number after. After an
// `Err` some of the edits are applied.
pub(crate) fn take_in(
    held: &mut Versions<SharedRow>,
    mut count: u32,
    edits: &[Edit],
    revision: u32,
) -> Result<u32, AllocError>
    requires { AreValid edits.now }
    ensures items { IfOk result (λ now. (es : List Edit) → AreItems revision es held.old count
        → AreItems revision (es ++ edits.now) held.new now) }
    ensures before { (q base : ℕ) → base < revision
        → value_at held.new q base ≡ value_at held.old q base }
    ensures others { (q base : ℕ) → list_any (names_item q) edits.now ≡ false
        → value_at held.new q base ≡ value_at held.old q base }
{
    for edit in edits {
        match take_in_one(held, count, edit, revision) {
            Ok(now) => count = now,
            Err(error) => return Err(error),
        }
    }
    Ok(count)
}

fn take_in_one(
    held: &mut Versions<SharedRow>,
    count: u32,
    edit: &Edit,
    revision: u32,
) -> Result<u32, AllocError>
    requires { IsValid edit.now }
    ensures items { IfOk result (λ now. (es : List Edit) → AreItems revision es held.old count
        → AreItems revision (es ++ edit.now ∷ []) held.new now) }
    ensures before { (q base : ℕ) → base < revision
        → value_at held.new q base ≡ value_at held.old q base }
    ensures others { (q base : ℕ) → names_item q edit.now ≡ false
        → value_at held.new q base ≡ value_at held.old q base }
{
    match edit {
        Edit::PutItem { row } => put(held, count, row, revision),
        Edit::DropItem { id } => set(held, count, *id, None, revision),
        _ => Ok(count),
    }
}

// Sets the row under its id, from `revision` on. Returns the number of rows afterwards.
fn put(
    held: &mut Versions<SharedRow>,
    count: u32,
    row: &SharedRow,
    revision: u32,
) -> Result<u32, AllocError>
    ensures rows { OnOk result ((q base : ℕ)
        → value_at held.new q base
        ≡ (if (row.now.id == q) && nat_le revision base then Some row.now
        else value_at held.old q base)) }
    ensures unchanged { OnErr result ((q base : ℕ)
        → value_at held.new q base ≡ value_at held.old q base) }
    ensures counted { IfOk result (λ now. (n : ℕ) → n < 2 ^ 32
        → n + (if is_some (newest_value (versions_at row.now.id held.old)) then 1 else 0)
        ≡ count + 1 → now ≡ n) }
{
    let id = row.row().id;
    match row.share() {
        Ok(shared) => set(held, count, id, Some(shared), revision),
        Err(error) => Err(error),
    }
}

// Sets the row under an id, or none, from `revision` on. Returns the number of rows afterwards.
fn set(
    held: &mut Versions<SharedRow>,
    count: u32,
    id: u32,
    row: Option<SharedRow>,
    revision: u32,
) -> Result<u32, AllocError>
    ensures rows { OnOk result ((q base : ℕ)
        → value_at held.new q base
        ≡ (if (id == q) && nat_le revision base then row else value_at held.old q base)) }
    ensures unchanged { OnErr result ((q base : ℕ)
        → value_at held.new q base ≡ value_at held.old q base) }
    ensures counted { IfOk result (λ now. (n : ℕ) → n < 2 ^ 32
        → n + (if is_some (newest_value (versions_at id held.old)) then 1 else 0)
        ≡ count + (if is_some row then 1 else 0) → now ≡ n) }
{
    let is = row.is_some();
    match held.put_value(id, revision, row) {
        Ok(was) => Ok(counted(count, was, is)),
        Err(error) => Err(error),
    }
}

// The number of rows after one was added or removed. Each of fewer than 2 ^ 32 has its own id.
fn counted(count: u32, was: bool, is: bool) -> u32
    ensures { (n : ℕ) → n < 2 ^ 32 → n + (if was then 1 else 0) ≡ count + (if is then 1 else 0)
        → result ≡ n }
{
    if was == is {
        return count;
    }
    if was {
        return count.saturating_sub(1);
    }
    count.saturating_add(1)
}

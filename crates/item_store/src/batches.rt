//! Batches, as they change what a store keeps: each leaves a list of the ids that it put or dropped.

ghost use Rattle.std.specs.Prelude.{◌≡◌, ◌≤◌, ◌<◌, ◌⊎◌, ◌-◌, ◌++◌, ◌∷◌, [], ℕ, List, min, map, drop, fold, flat_map, IfOk, OnOk, OnErr, if◌then◌else◌};
ghost use Rattle.std.specs.Ordering.{nat_cmp};
ghost use Rattle.std.specs.BTreeSet.{insert_key};
ghost use Rattle.item_model.specs.Valid.{AreValid};
ghost use Rattle.share_history.specs.Keyed.{ascending};
ghost use Rattle.item_store.specs.Stands.{named_items};
ghost use Rattle.key_versions.specs.Held.{value_at, is_among};
ghost use Rattle.item_store.specs.Changes.{AreItems};

use crate::edits::{ids_of, take_in};
use item_model::{Edit, SharedRow};
use key_versions::Versions;
use std::alloc::{AllocError, Global};
use std::collections::{BTreeSet, VecDeque};

// Applies a batch that makes a revision. `count` is the number of items before; returns the number after. After an
// `Err` the batch is reverted.
pub(crate) fn take_in_batch(
    alloc: Global,
    held: &mut Versions<SharedRow>,
    named: &mut VecDeque<Vec<u32>>,
    count: u32,
    edits: &[Edit],
    revision: u32,
) -> Result<u32, AllocError>
    requires { AreValid edits.now }
    ensures named { OnOk result (map (λ v. v.items) named.new.items
        ≡ map (λ v. v.items) named.old.items ++ named_items edits.now ∷ []) }
    ensures items { IfOk result (λ now. (es : List Edit) → AreItems revision es held.old count
        → AreItems revision (es ++ edits.now) held.new now) }
    ensures before { OnOk result ((q base : ℕ) → base < revision
        → value_at held.new q base ≡ value_at held.old q base) }
    ensures named_left { OnErr result
        (map (λ v. v.items) named.new.items ≡ map (λ v. v.items) named.old.items) }
    ensures rows_left { OnErr result (1 ≤ revision → (q base : ℕ)
        → (value_at held.new q base ≡ value_at held.old q base)
        ⊎ (value_at held.new q base ≡ value_at held.old q (min base (revision - 1)))) }
{
    let ids = match ids_of(alloc, edits) {
        Ok(ids) => ids,
        Err(error) => return Err(error),
    };
    match named.push_back(ids) {
        Ok(()) => {}
        Err(_) => return Err(AllocError),
    }
    match take_in(held, count, edits, revision) {
        Ok(now) => Ok(now),
        Err(error) => {
            take_back_batch(held, named, revision);
            Err(error)
        }
    }
}

// Reverts the last batch, which made a revision.
pub(crate) fn take_back_batch(
    held: &mut Versions<SharedRow>,
    named: &mut VecDeque<Vec<u32>>,
    revision: u32,
)
    ensures named { (front : List (List ℕ)) (ids : List ℕ)
        → map (λ v. v.items) named.old.items ≡ front ++ ids ∷ []
        → map (λ v. v.items) named.new.items ≡ front }
    ensures rows { 1 ≤ revision → (front : List (List ℕ)) (ids : List ℕ)
        → map (λ v. v.items) named.old.items ≡ front ++ ids ∷ [] → (q base : ℕ)
        → value_at held.new q base
        ≡ value_at held.old q (if is_among q ids then min base (revision - 1) else base) }
{
    match named.pop_back() {
        Some(ids) => held.take_back_all(ids.as_slice(), revision),
        None => {}
    }
}

// Takes out what no revision from a floor on asks for, and the lists of the batches that made the floor and those
// between a low revision and it.
pub(crate) fn prune_to(
    held: &mut Versions<SharedRow>,
    named: &mut VecDeque<Vec<u32>>,
    low: u32,
    floor: u32,
)
    ensures named { named.new.items ≡ drop (floor - low) named.old.items }
    ensures rows { (q base : ℕ) → floor ≤ base
        → value_at held.new q base ≡ value_at held.old q base }
{
    for passed in 0..floor.saturating_sub(low) {
        prune_batch(held, named, floor);
    }
}

fn prune_batch(held: &mut Versions<SharedRow>, named: &mut VecDeque<Vec<u32>>, floor: u32)
    ensures named { named.new.items ≡ drop 1 named.old.items }
    ensures rows { (q base : ℕ) → floor ≤ base
        → value_at held.new q base ≡ value_at held.old q base }
{
    match named.pop_front() {
        Some(ids) => held.prune_all(ids.as_slice(), floor),
        None => {}
    }
}

// Returns the ids in the lists after the first `passed` ones.
pub(crate) fn ids_after(
    alloc: Global,
    named: &VecDeque<Vec<u32>>,
    passed: usize,
) -> Result<BTreeSet<u32>, AllocError>
    ensures { IfOk result (λ ids. ids.keys
        ≡ ascending (flat_map (λ v. v.items) (drop passed named.now.items))) }
{
    let mut ids = BTreeSet::new(alloc);
    for index in passed..named.len() {
        insert_all(&mut ids, named[index].as_slice())?;
    }
    Ok(ids)
}

fn insert_all(ids: &mut BTreeSet<u32>, more: &[u32]) -> Result<(), AllocError>
    ensures { OnOk result (ids.new.keys ≡ fold (insert_key nat_cmp) ids.old.keys more.now) }
{
    for id in more {
        ids.insert(*id)?;
    }
    Ok(())
}

// The ids as a vector.
pub(crate) fn listed(alloc: Global, ids: &BTreeSet<u32>) -> Result<Vec<u32>, AllocError>
    ensures { IfOk result (λ list. list.items ≡ ids.now.keys) }
{
    let mut list = Vec::new(alloc);
    for id in ids {
        list.push(*id)?;
    }
    Ok(list)
}

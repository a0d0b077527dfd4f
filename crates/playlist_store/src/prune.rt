//! Removing versions that no revision in the window can read.

ghost use Rattle.std.specs.Prelude.{◌≡◌, ◌≤◌, ◌-◌, ◌==◌, ◌∷◌, ℕ, None, Some, true, false, drop, take, nat_le, if◌then◌else◌};
ghost use Rattle.std.specs.List.{find, list_any};
ghost use Rattle.std.specs.BTreeMap.{is_at};
ghost use Rattle.key_versions.specs.Held.{at, value_at};
ghost use Rattle.playlist_store.specs.Lists.{near_cmp};
ghost use Rattle.playlist_store.specs.Changes.{found_in, now_of, ChangesOne, Everywhere, GoneBy, PrunesAll, PrunesKept, ForgetsOne};

use crate::heads::has_rule;
use crate::kept::{ListHistory, ListVersion};
use crate::lists::{Lists, remove};
use crate::named::Named;
use key_versions::{Versions, next_key};
use std::alloc::Global;
use std::collections::{BTreeSet, VecDeque};

// Removes versions that are read at no revision from `floor` on, if the last batch may still be reverted to revision
// `before`. Also removes the names of the batches up to `floor`.
pub(crate) fn prune_to(
    alloc: Global,
    lists: &mut Lists,
    named: &mut VecDeque<Named>,
    low: u32,
    floor: u32,
    before: u32,
)
    ensures named { named.new.items ≡ drop (floor - low) named.old.items }
    ensures lists { floor ≤ before → PrunesAll floor before lists.old.entries lists.new.entries }
{
    forget_last(alloc, lists, named, before);
    for passed in 0..floor.saturating_sub(low) {
        prune_batch(lists, named, floor);
    }
}

// Removes versions of the lists in the last two batches that are read at no revision from `before` on.
fn forget_last(alloc: Global, lists: &mut Lists, named: &VecDeque<Named>, before: u32)
    ensures { (floor : ℕ) → floor ≤ before
        → PrunesAll floor before lists.old.entries lists.new.entries }
{
    for index in named.len().saturating_sub(2)..named.len() {
        forget_all(alloc, lists, named[index].lists.as_slice(), before);
    }
}

fn forget_all(alloc: Global, lists: &mut Lists, ids: &[u32], before: u32)
    ensures { (floor : ℕ) → floor ≤ before
        → PrunesAll floor before lists.old.entries lists.new.entries }
{
    for id in ids {
        forget(alloc, lists, *id, before);
    }
}

fn forget(alloc: Global, lists: &mut Lists, id: u32, before: u32)
    ensures here { ForgetsOne before (at id lists.old.entries) (at id lists.new.entries) }
    ensures others { (q : ℕ) → (id == q) ≡ false → at q lists.new.entries ≡ at q lists.old.entries }
{
    match lists.get_mut(&id) {
        Some(list) => forget_older(alloc, list, before),
        None => {}
    }
}

fn forget_older(alloc: Global, list: &mut ListHistory, before: u32)
    ensures now { list.new.now ≡ list.old.now }
    ensures found { (v : ℕ) → before ≤ v → found_in list.new v ≡ found_in list.old v }
{
    if list.now.since <= before {
        list.older = VecDeque::new(alloc);
        return;
    }
    if is_first_seen(&list.older, before) {
        list.older.truncate(1);
    }
}

fn is_first_seen(older: &VecDeque<ListVersion>, before: u32) -> bool
    ensures { result ≡ true → (v : ℕ) → before ≤ v
        → find (λ kept. nat_le kept.since v) (take 1 older.now.items)
        ≡ find (λ kept. nat_le kept.since v) older.now.items }
{
    if older.is_empty() {
        return false;
    }
    older[0].since <= before
}

fn prune_batch(lists: &mut Lists, named: &mut VecDeque<Named>, floor: u32)
    ensures named { named.new.items ≡ drop 1 named.old.items }
    ensures lists { (before : ℕ) → floor ≤ before
        → PrunesAll floor before lists.old.entries lists.new.entries }
{
    match named.pop_front() {
        Some(names) => prune_named(lists, &names, floor),
        None => {}
    }
}

fn prune_named(lists: &mut Lists, names: &Named, floor: u32)
    ensures { (before : ℕ) → floor ≤ before
        → PrunesAll floor before lists.old.entries lists.new.entries }
{
    drop_all(lists, names.lists.as_slice(), floor);
    prune_members(lists, names.members.as_slice(), floor);
    if names.items.is_empty() {
        return;
    }
    prune_items(lists, names.items.as_slice(), floor);
}

// Removes lists that were dropped at `floor` or before.
fn drop_all(lists: &mut Lists, ids: &[u32], floor: u32)
    ensures { (before : ℕ) → floor ≤ before
        → PrunesAll floor before lists.old.entries lists.new.entries }
{
    for id in ids {
        drop_gone(lists, *id, floor);
    }
}

fn drop_gone(lists: &mut Lists, id: u32, floor: u32)
    ensures { (before : ℕ) → floor ≤ before
        → PrunesAll floor before lists.old.entries lists.new.entries }
{
    if is_gone(lists, id, floor) {
        remove(lists, id);
    }
}

fn is_gone(lists: &Lists, id: u32, floor: u32) -> bool
    ensures { result ≡ true → GoneBy floor (now_of (at id lists.now.entries)) }
{
    match lists.get(&id) {
        Some(list) => list.now.since <= floor && list.now.head.is_none(),
        None => false,
    }
}

fn prune_members(lists: &mut Lists, members: &[(u32, u32)], floor: u32)
    ensures { Everywhere (PrunesKept floor) lists.old.entries lists.new.entries }
{
    for member in members {
        prune_member(lists, member.0, member.1, floor);
    }
}

fn prune_member(lists: &mut Lists, id: u32, key: u32, floor: u32)
    ensures { ChangesOne id (PrunesKept floor) lists.old.entries lists.new.entries }
{
    match lists.get_mut(&id) {
        Some(list) => prune_key(&mut list.now, key, floor),
        None => {}
    }
}

fn prune_items(lists: &mut Lists, items: &[u32], floor: u32)
    ensures { Everywhere (PrunesKept floor) lists.old.entries lists.new.entries }
{
    let mut last = None;
    while let Some(id) = next_key(lists, last) {
        prune_rule(lists, id, items, floor);
        last = Some(id);
    }
}

fn prune_rule(lists: &mut Lists, id: u32, items: &[u32], floor: u32)
    ensures { ChangesOne id (PrunesKept floor) lists.old.entries lists.new.entries }
{
    match lists.get_mut(&id) {
        Some(list) => prune_ruled(&mut list.now, items, floor),
        None => {}
    }
}

fn prune_ruled(kept: &mut ListVersion, items: &[u32], floor: u32)
    ensures { PrunesKept floor kept.old kept.new }
{
    if has_rule(&kept.head) {
        prune_keys(kept, items, floor);
    }
}

fn prune_keys(kept: &mut ListVersion, keys: &[u32], floor: u32)
    ensures { PrunesKept floor kept.old kept.new }
{
    for key in keys {
        prune_key(kept, *key, floor);
    }
}

// Removes a key's versions before `floor`, and each pair whose item no version has any more.
fn prune_key(kept: &mut ListVersion, key: u32, floor: u32)
    ensures { PrunesKept floor kept.old kept.new }
{
    while let Some(version) = kept.members.pop_past(key, floor) {
        if let Some(item) = version.value {
            forget_pair(&kept.members, &mut kept.near, item, key);
        }
    }
    kept.members.prune(key, floor);
}

fn forget_pair(members: &Versions<u32>, near: &mut BTreeSet<(u32, u32)>, item: u32, key: u32)
    ensures { (k other base : ℕ) → value_at members.now k base ≡ Some other
        → list_any (is_at (near_cmp (other, k))) near.old.keys ≡ true
        → list_any (is_at (near_cmp (other, k))) near.new.keys ≡ true }
{
    if !members.has_number(key, item) {
        near.remove(&(item, key));
    }
}

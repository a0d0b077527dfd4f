//! Lists by id: putting, dropping and reverting one.

ghost use Rattle.std.specs.Prelude.{◌≡◌, ◌≤◌, ◌<◌, ◌==◌, ◌∷◌, [], ℕ, true, false, Some, None, OnOk, OnErr, if◌then◌else◌};
ghost use Rattle.key_versions.specs.Held.{at};
ghost use Rattle.playlist_store.specs.Changes.{found_in, Puts, PopsOne, Pops};

use crate::kept::{ListHistory, ListVersion};
use std::alloc::{AllocError, Global};
use std::collections::{BTreeMap, VecDeque};
use std::mem;

pub(crate) type Lists = BTreeMap<u32, ListHistory>;

// Makes `kept` the newest version of list `id`; it replaces one of the same revision.
pub(crate) fn put(
    alloc: Global,
    lists: &mut Lists,
    id: u32,
    kept: ListVersion,
) -> Result<(), AllocError>
    ensures { Puts id kept result lists.old.entries lists.new.entries }
{
    match lists.get_mut(&id) {
        Some(list) => put_over(list, kept),
        None => put_first(alloc, lists, id, kept),
    }
}

fn put_over(list: &mut ListHistory, kept: ListVersion) -> Result<(), AllocError>
    ensures now { OnOk result (list.new.now ≡ kept) }
    ensures left { OnErr result (list.new.now ≡ list.old.now) }
    ensures below { (v : ℕ) → v < kept.since → found_in list.new v ≡ found_in list.old v }
{
    let replaces = list.now.since == kept.since;
    let ListHistory { now, older } = list;
    put_newest(now, older, kept, replaces)
}

// Makes `value` the newest. The newest so far is dropped if `replaces`, and otherwise becomes the first of `older`.
// It is generic, as `insert`, `pop_newest` and `remove` are: what a version consists of is no concern of theirs.
fn put_newest<T: Drop>(
    now: &mut T,
    older: &mut VecDeque<T>,
    value: T,
    replaces: bool,
) -> Result<(), AllocError>
    ensures now { OnOk result (now.new ≡ value) }
    ensures older { OnOk result (older.new.items
        ≡ (if replaces then older.old.items else now.old ∷ older.old.items)) }
    ensures left { OnErr result (now.new ≡ now.old) }
    ensures left_older { OnErr result (older.new.items ≡ older.old.items) }
{
    if replaces {
        *now = value;
        return Ok(());
    }
    match older.reserve(1) {
        Ok(()) => {}
        Err(error) => return Err(error),
    }
    older.push_front_reserved(mem::replace(now, value));
    Ok(())
}

fn put_first(alloc: Global, lists: &mut Lists, id: u32, kept: ListVersion) -> Result<(), AllocError>
    requires { at id lists.old.entries ≡ None }
    ensures { Puts id kept result lists.old.entries lists.new.entries }
{
    let list = ListHistory {
        now: kept,
        older: VecDeque::new(alloc),
    };
    insert(lists, id, list)
}

fn insert<T: Drop>(map: &mut BTreeMap<u32, T>, id: u32, value: T) -> Result<(), AllocError>
    ensures put { OnOk result ((q : ℕ)
        → at q map.new.entries ≡ (if id == q then Some value else at q map.old.entries)) }
    ensures left { OnErr result ((q : ℕ) → at q map.new.entries ≡ at q map.old.entries) }
{
    match map.insert(id, value) {
        Ok(_) => Ok(()),
        Err(_) => Err(AllocError),
    }
}

// Removes the versions of lists from `revision` on.
pub(crate) fn pop_all(lists: &mut Lists, ids: &[u32], revision: u32)
    ensures { 1 ≤ revision → Pops revision ids.now lists.old.entries lists.new.entries }
{
    for id in ids {
        pop(lists, *id, revision);
    }
}

fn pop(lists: &mut Lists, id: u32, revision: u32)
    ensures here { 1 ≤ revision → PopsOne revision (at id lists.old.entries)
        (at id lists.new.entries) }
    ensures others { (q : ℕ) → (id == q) ≡ false → at q lists.new.entries ≡ at q lists.old.entries }
{
    if pop_at(lists, id, revision) {
        remove(lists, id);
    }
}

fn pop_at(lists: &mut Lists, id: u32, revision: u32) -> bool
    ensures here { 1 ≤ revision → PopsOne revision (at id lists.old.entries) (if result then None
        else at id lists.new.entries) }
    ensures others { (q : ℕ) → (id == q) ≡ false → at q lists.new.entries ≡ at q lists.old.entries }
{
    match lists.get_mut(&id) {
        Some(list) => step_back(list, revision),
        None => false,
    }
}

// Returns whether no version is left.
fn step_back(list: &mut ListHistory, revision: u32) -> bool
    ensures gone { result ≡ true → (v : ℕ) → v < revision → found_in list.old v ≡ None }
    ensures left { result ≡ false → (v : ℕ) → v < revision
        → found_in list.new v ≡ found_in list.old v }
    ensures since { result ≡ false → list.new.now.since < revision }
{
    let ListHistory { now, older } = list;
    while revision <= now.since {
        if !pop_newest(now, older) {
            return true;
        }
    }
    false
}

// Replaces the newest by the first of `older`, and returns whether there was one.
fn pop_newest<T: Drop>(now: &mut T, older: &mut VecDeque<T>) -> bool
    ensures popped { result ≡ true → older.old.items ≡ now.new ∷ older.new.items }
    ensures last { result ≡ false → older.old.items ≡ [] }
{
    match older.pop_front() {
        Some(value) => {
            *now = value;
            true
        }
        None => false,
    }
}

pub(crate) fn remove<T: Drop>(map: &mut BTreeMap<u32, T>, id: u32)
    ensures { (q : ℕ) → at q map.new.entries ≡ (if id == q then None else at q map.old.entries) }
{
    map.remove(&id);
}

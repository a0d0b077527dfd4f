//! The ids of lists.

ghost use Rattle.std.specs.Prelude.{◌≡◌, ◌<◌, ◌+◌, ◌^◌, is_some, length, filter, fold, IfOk, OnOk, if◌then◌else◌};
ghost use Rattle.std.specs.List.{list_any};
ghost use Rattle.std.specs.Map.{keys_of};
ghost use Rattle.std.specs.Ordering.{nat_cmp};
ghost use Rattle.std.specs.BTreeSet.{insert_key};
ghost use Rattle.std.specs.List.Sorted.{IsStrictlySortedBy};
ghost use Rattle.share_history.specs.Keyed.{ascending};
ghost use Rattle.playlist_store.specs.Reads.{with_list, is_of_list};

use crate::kept::ListHistory;
use item_model::Edit;
use std::alloc::{AllocError, Global};
use std::collections::{BTreeMap, BTreeSet};

// Returns the ids of the existing lists, ascending.
pub(crate) fn ids(alloc: Global, lists: &BTreeMap<u32, ListHistory>) -> Result<Vec<u32>, AllocError>
    ensures ids { IfOk result (λ ids. ids.items
        ≡ keys_of (filter (λ e. is_some e.1.now.head) lists.now.entries)) }
    ensures ascending { IfOk result (λ _. IsStrictlySortedBy nat_cmp (keys_of lists.now.entries)) }
{
    let mut ids = Vec::new(alloc);
    for (id, list) in lists {
        if list.now.head.is_some() {
            ids.push(*id)?;
        }
    }
    Ok(ids)
}

// Returns `count`, plus one if `is_counted`.
fn count_with(count: u32, is_counted: bool) -> u32
    ensures { count + (if is_counted then 1 else 0) < 2 ^ 32
        → result ≡ count + (if is_counted then 1 else 0) }
{
    if is_counted {
        return count.saturating_add(1);
    }
    count
}

// Returns the number of existing lists.
pub(crate) fn count(lists: &BTreeMap<u32, ListHistory>) -> u32
    ensures count { length (filter (λ e. is_some e.1.now.head) lists.now.entries) < 2 ^ 32
        → result ≡ length (filter (λ e. is_some e.1.now.head) lists.now.entries) }
    ensures ascending { IsStrictlySortedBy nat_cmp (keys_of lists.now.entries) }
{
    let mut count = 0;
    for (id, list) in lists {
        count = count_with(count, list.now.head.is_some());
    }
    count
}

fn is_of_list(edit: &Edit) -> bool
    ensures { result ≡ is_of_list edit.now }
{
    matches!(
        edit,
        Edit::PutList { .. } | Edit::PutRule { .. } | Edit::DropList { .. }
    )
}

// Returns whether some of the edits puts or drops a list.
pub(crate) fn has_list(edits: &[Edit]) -> bool
    ensures { result ≡ list_any is_of_list edits.now }
{
    for edit in edits {
        if is_of_list(edit) {
            return true;
        }
    }
    false
}

// Returns the ids as a set.
pub(crate) fn set_of(alloc: Global, ids: &[u32]) -> Result<BTreeSet<u32>, AllocError>
    ensures { IfOk result (λ set. set.keys ≡ ascending ids.now) }
{
    let mut set = BTreeSet::new(alloc);
    for id in ids {
        set.insert(*id)?;
    }
    Ok(set)
}

// Changes the ids of existing lists as the edits do.
pub(crate) fn take_in(ids: &mut BTreeSet<u32>, edits: &[Edit]) -> Result<(), AllocError>
    ensures { OnOk result (ids.new.keys ≡ fold with_list ids.old.keys edits.now) }
{
    for edit in edits {
        take_in_one(ids, edit)?;
    }
    Ok(())
}

fn take_in_one(ids: &mut BTreeSet<u32>, edit: &Edit) -> Result<(), AllocError>
    ensures { OnOk result (ids.new.keys ≡ with_list ids.old.keys edit.now) }
{
    match edit {
        Edit::PutList { list, .. } | Edit::PutRule { list, .. } => {
            ids.insert(*list)?;
            Ok(())
        }
        Edit::DropList { list } => {
            ids.remove(list);
            Ok(())
        }
        _ => Ok(()),
    }
}

//! Applying the edits of a batch to the lists.

ghost use Rattle.std.specs.Prelude.{◌≡◌, ◌≤◌, ◌++◌, ◌∷◌, [], ℕ, List, Some, true, OnOk};
ghost use Rattle.std.specs.List.{list_any};
ghost use Rattle.std.specs.BTreeMap.{is_at};
ghost use Rattle.item_model.specs.declared.changes.Edit.{Edit};
ghost use Rattle.playlist_store.specs.Lists.{Lists as KeptLists, near_cmp};
ghost use Rattle.playlist_store.specs.Changes.{ChangesOne, Frames, Tells, SetsMember, LeavesMember};

use crate::heads::{fresh, is_plain, plain_head, ruled_head};
use crate::kept::ListVersion;
use crate::lists::{Lists, put};
use item_model::Edit;
use std::alloc::{AllocError, Global};
use std::collections::BTreeSet;

// Applies the edits of `batch`, which make `revision`. After an `Err` some of them are applied.
pub(crate) fn take_in(
    alloc: Global,
    lists: &mut Lists,
    batch: &[Edit],
    revision: u32,
) -> Result<(), AllocError>
    requires { 1 ≤ revision }
    ensures tells { OnOk result ((es : List Edit)
        → Tells revision es [] lists.old.entries lists.old.entries
        → Tells revision (es ++ batch.now) batch.now lists.old.entries lists.new.entries) }
    ensures frames { Frames revision batch.now lists.old.entries lists.new.entries }
{
    for edit in batch {
        match take_in_one(alloc, lists, edit, revision) {
            Ok(()) => {}
            Err(error) => return Err(error),
        }
    }
    Ok(())
}

fn take_in_one(
    alloc: Global,
    lists: &mut Lists,
    edit: &Edit,
    revision: u32,
) -> Result<(), AllocError>
    requires { 1 ≤ revision }
    ensures tells { OnOk result ((es batch : List Edit) (first : KeptLists)
        → Tells revision es batch first lists.old.entries
        → Tells revision (es ++ edit.now ∷ []) (batch ++ edit.now ∷ []) first lists.new.entries) }
    ensures frames { Frames revision (edit.now ∷ []) lists.old.entries lists.new.entries }
{
    match edit {
        Edit::PutList { list, name } => match plain_head(name) {
            Ok(head) => put(alloc, lists, *list, fresh(alloc, revision, Some(head))),
            Err(error) => Err(error),
        },
        Edit::PutRule { list, name, rule } => match ruled_head(name, rule) {
            Ok(head) => put(alloc, lists, *list, fresh(alloc, revision, Some(head))),
            Err(error) => Err(error),
        },
        Edit::DropList { list } => put(alloc, lists, *list, fresh(alloc, revision, None)),
        Edit::PutMember { list, member, item } => {
            set_member(lists, *list, *member, revision, Some(*item))
        }
        Edit::DropMember { list, member } => set_member(lists, *list, *member, revision, None),
        _ => Ok(()),
    }
}

// Sets the item of a member of a playlist from `revision` on. A smart playlist has no members to set.
fn set_member(
    lists: &mut Lists,
    id: u32,
    key: u32,
    revision: u32,
    item: Option<u32>,
) -> Result<(), AllocError>
    ensures sets { OnOk result (ChangesOne id
        (SetsMember revision key item) lists.old.entries lists.new.entries) }
    ensures leaves { ChangesOne id (LeavesMember revision key) lists.old.entries lists.new.entries }
{
    match lists.get_mut(&id) {
        Some(list) => set_in(&mut list.now, key, revision, item),
        None => Ok(()),
    }
}

fn set_in(
    kept: &mut ListVersion,
    key: u32,
    revision: u32,
    item: Option<u32>,
) -> Result<(), AllocError>
    ensures sets { OnOk result (SetsMember revision key item kept.old kept.new) }
    ensures leaves { LeavesMember revision key kept.old kept.new }
{
    if !is_plain(&kept.head) {
        return Ok(());
    }
    match note(&mut kept.near, key, item) {
        Ok(()) => {}
        Err(error) => return Err(error),
    }
    kept.members.put_number(key, revision, item)
}

// Adds the member to the index by item.
fn note(near: &mut BTreeSet<(u32, u32)>, key: u32, item: Option<u32>) -> Result<(), AllocError>
    ensures stay { (other k : ℕ) → list_any (is_at (near_cmp (other, k))) near.old.keys ≡ true
        → list_any (is_at (near_cmp (other, k))) near.new.keys ≡ true }
    ensures noted { OnOk result ((other : ℕ) → item ≡ Some other
        → list_any (is_at (near_cmp (other, key))) near.new.keys ≡ true) }
{
    match item {
        Some(item) => match near.insert((item, key)) {
            Ok(_) => Ok(()),
            Err(_) => Err(AllocError),
        },
        None => Ok(()),
    }
}

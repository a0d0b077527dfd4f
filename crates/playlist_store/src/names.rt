//! Collects what a batch names.

ghost use Rattle.std.specs.Prelude.{◌≡◌, option_to_list, IfOk};
ghost use Rattle.std.specs.List.{list_any};
ghost use Rattle.item_store.specs.Stands.{items_in, named_items};
ghost use Rattle.share_history.specs.Named.{named_lists};
ghost use Rattle.playlist_store.specs.Names.{members_in, named_members, names_of};
ghost use Rattle.playlist_store.specs.Changes.{puts_rule};

use crate::named::Named;
use item_model::Edit;
use share_history::list_of;
use std::alloc::{AllocError, Global};

pub(crate) fn names_of(alloc: Global, batch: &[Edit]) -> Result<Named, AllocError>
    ensures { IfOk result (λ named. named ≡ names_of batch.now) }
{
    let lists = lists_of(alloc, batch)?;
    let members = members_of(alloc, batch)?;
    let items = items_of(alloc, batch)?;
    Ok(Named {
        lists,
        members,
        items,
    })
}

fn lists_of(alloc: Global, batch: &[Edit]) -> Result<Vec<u32>, AllocError>
    ensures { IfOk result (λ ids. ids.items ≡ named_lists batch.now) }
{
    let mut ids = Vec::new(alloc);
    for edit in batch {
        if let Some(id) = list_of(edit) {
            ids.push(id)?;
        }
    }
    Ok(ids)
}

fn members_of(alloc: Global, batch: &[Edit]) -> Result<Vec<(u32, u32)>, AllocError>
    ensures { IfOk result (λ members. members.items ≡ named_members batch.now) }
{
    let mut members = Vec::new(alloc);
    for edit in batch {
        if let Some(member) = member_of(edit) {
            members.push(member)?;
        }
    }
    Ok(members)
}

fn member_of(edit: &Edit) -> Option<(u32, u32)>
    ensures { option_to_list result ≡ members_in edit.now }
{
    match edit {
        Edit::PutMember { list, member, .. } | Edit::DropMember { list, member } => {
            Some((*list, *member))
        }
        _ => None,
    }
}

fn items_of(alloc: Global, batch: &[Edit]) -> Result<Vec<u32>, AllocError>
    ensures { IfOk result (λ ids. ids.items ≡ named_items batch.now) }
{
    let mut ids = Vec::new(alloc);
    for edit in batch {
        if let Some(id) = item_of(edit) {
            ids.push(id)?;
        }
    }
    Ok(ids)
}

fn item_of(edit: &Edit) -> Option<u32>
    ensures { option_to_list result ≡ items_in edit.now }
{
    match edit {
        Edit::PutItem { row } => Some(row.row().id),
        Edit::DropItem { id } => Some(*id),
        _ => None,
    }
}

// Returns whether one of the edits puts a smart playlist.
pub(crate) fn has_rule_put(batch: &[Edit]) -> bool
    ensures { result ≡ list_any puts_rule batch.now }
{
    for edit in batch {
        if let Edit::PutRule { .. } = edit {
            return true;
        }
    }
    false
}

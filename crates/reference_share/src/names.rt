//! What edits name.

ghost use Rattle.std.specs.Prelude.{◌≡◌};
ghost use Rattle.std.specs.List.{list_any};
ghost use Rattle.share_history.specs.Histories.{all_edits};
ghost use Rattle.reference_share.specs.NamedBy.{names};

use crate::revisions::edits_of;
use item_model::{Edit, Entry};

/// An item, a list as a whole, or a member of a list.
#[derive(Clone, Copy, PartialEq, Eq)]
pub enum Named {
    Item(u32),
    List(u32),
    Member { list: u32, member: u32 },
}

fn names_item(edit: &Edit, id: u32) -> bool
    ensures { result ≡ names (Named.Item id) edit.now }
{
    match edit {
        Edit::PutItem { row } => row.row().id == id,
        Edit::DropItem { id: dropped } => *dropped == id,
        _ => false,
    }
}

fn names_list(edit: &Edit, id: u32) -> bool
    ensures { result ≡ names (Named.List id) edit.now }
{
    match edit {
        Edit::PutList { list, .. } | Edit::PutRule { list, .. } | Edit::DropList { list } => {
            *list == id
        }
        _ => false,
    }
}

fn names_member(edit: &Edit, list: u32, member: u32) -> bool
    ensures { result ≡ names (Named.Member list member) edit.now }
{
    match edit {
        Edit::PutMember {
            list: changed,
            member: key,
            ..
        }
        | Edit::DropMember {
            list: changed,
            member: key,
        } => *changed == list && *key == member,
        _ => false,
    }
}

fn does_name(edit: &Edit, named: Named) -> bool
    ensures { result ≡ names named edit.now }
{
    match named {
        Named::Item(id) => names_item(edit, id),
        Named::List(id) => names_list(edit, id),
        Named::Member { list, member } => names_member(edit, list, member),
    }
}

#[tactic(auto, using(crate::proofs::LoopFacts::any_left))]
fn one_names(edits: &[Edit], named: Named) -> bool
    ensures { result ≡ list_any (names named) edits.now }
{
    for edit in edits {
        if does_name(edit, named) {
            return true;
        }
    }
    false
}

/// Returns whether some edit of the entries names it.
#[tactic(auto, using(crate::proofs::LoopFacts::any_entries_left))]
pub fn is_named(entries: &[Entry], named: Named) -> bool
    ensures { result ≡ list_any (names named) (all_edits entries.now) }
{
    for entry in entries {
        if one_names(edits_of(entry), named) {
            return true;
        }
    }
    false
}

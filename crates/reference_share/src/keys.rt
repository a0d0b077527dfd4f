//! The keys that edits name.

ghost use Rattle.std.specs.Prelude.{◌≡◌, ◌++◌, OnOk, IfOk, fold, option_to_list};
ghost use Rattle.std.specs.Ordering.{nat_cmp};
ghost use Rattle.std.specs.BTreeSet.{insert_key};
ghost use Rattle.share_history.specs.Histories.{all_edits};
ghost use Rattle.share_history.specs.Keyed.{ascending};
ghost use Rattle.share_history.specs.Named.{keys_in, named_keys, named_lists};

use crate::revisions::edits_of;
use item_model::{Edit, Entry};
use share_history::list_of;
use std::alloc::{AllocError, Global};
use std::collections::BTreeSet;

fn key_of(edit: &Edit) -> Option<u32>
    ensures { option_to_list result ≡ keys_in edit.now }
{
    match edit {
        Edit::PutItem { row } => Some(row.row().id),
        Edit::DropItem { id } => Some(*id),
        Edit::PutMember { member, .. } | Edit::DropMember { member, .. } => Some(*member),
        Edit::PutList { .. } | Edit::PutRule { .. } | Edit::DropList { .. } => None,
    }
}

fn put(keys: &mut BTreeSet<u32>, key: Option<u32>) -> Result<(), AllocError>
    ensures { OnOk result (keys.new.keys
        ≡ fold (insert_key nat_cmp) keys.old.keys (option_to_list key)) }
{
    if let Some(key) = key {
        keys.insert(key)?;
    }
    Ok(())
}

#[tactic(auto, using(share_history::proofs::FoldFacts::folded_left))]
fn put_keys(keys: &mut BTreeSet<u32>, edits: &[Edit]) -> Result<(), AllocError>
    ensures { OnOk result (keys.new.keys
        ≡ fold (insert_key nat_cmp) keys.old.keys (named_keys edits.now)) }
{
    for edit in edits {
        put(keys, key_of(edit))?;
    }
    Ok(())
}

#[tactic(auto, using(share_history::proofs::FoldFacts::folded_left))]
fn put_lists(keys: &mut BTreeSet<u32>, edits: &[Edit]) -> Result<(), AllocError>
    ensures { OnOk result (keys.new.keys
        ≡ fold (insert_key nat_cmp) keys.old.keys (named_lists edits.now)) }
{
    for edit in edits {
        put(keys, list_of(edit))?;
    }
    Ok(())
}

/// Returns the ids of items and of members that the edits name.
#[tactic(auto, using(crate::proofs::LoopFacts::folded_entries_left))]
pub(crate) fn keys(alloc: Global, history: &[Entry]) -> Result<BTreeSet<u32>, AllocError>
    ensures { IfOk result (λ keys. keys.keys ≡ ascending (named_keys (all_edits history.now))) }
{
    let mut keys = BTreeSet::new(alloc);
    for entry in history {
        put_keys(&mut keys, edits_of(entry))?;
    }
    Ok(keys)
}

/// Returns the ids of lists that the edits put or drop.
#[tactic(auto, using(crate::proofs::LoopFacts::folded_entries_left))]
pub(crate) fn lists(alloc: Global, history: &[Entry]) -> Result<BTreeSet<u32>, AllocError>
    ensures { IfOk result (λ keys. keys.keys ≡ ascending (named_lists (all_edits history.now))) }
{
    let mut keys = BTreeSet::new(alloc);
    for entry in history {
        put_lists(&mut keys, edits_of(entry))?;
    }
    Ok(keys)
}

/// Returns the ids of lists that the history or `edits` put or drop.
#[tactic(auto, using(crate::proofs::LoopFacts::keys_on))]
pub(crate) fn lists_with(
    alloc: Global,
    history: &[Entry],
    edits: &[Edit],
) -> Result<BTreeSet<u32>, AllocError>
    ensures { IfOk result (λ keys. keys.keys
        ≡ ascending (named_lists (all_edits history.now ++ edits.now))) }
{
    let mut keys = lists(alloc, history)?;
    put_lists(&mut keys, edits)?;
    Ok(keys)
}

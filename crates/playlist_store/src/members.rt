//! The members of a list whose items exist.

ghost use Rattle.std.specs.Prelude.{◌≡◌, ◌==◌, ◌++◌, ℕ, List, None, false, is_some, map, option_map, option_and_then, option_to_list, IfOk, OnOk};
ghost use Rattle.item_model.specs.declared.changes.Edit.{Edit};
ghost use Rattle.item_model.specs.declared.request.Target.TheVariants.{Container};
ghost use Rattle.item_store.specs.Stands as item_stands;
ghost use Rattle.key_versions.specs.Found.{newest_value};
ghost use Rattle.key_versions.specs.Held.{versions_at};
ghost use Rattle.share_history.specs.Numbers.{base_list};
ghost use Rattle.share_history.specs.Histories.{edits};
ghost use Rattle.share_history.specs.Keyed.{pairs_at};
ghost use Rattle.share_history.specs.LastSaid.{item_at, list_at};
ghost use Rattle.share_history.specs.Rows.{rows};
ghost use Rattle.playlist_store.specs.Words.{standing, pair_of};
ghost use Rattle.playlist_store.specs.Reads.{there};

use crate::head::Member;
use item_model::Edit;
use item_store::ItemStore;
use key_versions::Versions;
use std::alloc::{AllocError, Global};

fn is_there(items: &ItemStore, id: u32) -> bool
    ensures { (bs : List (List Edit)) → item_stands.StandsFor bs items.now
        → result ≡ is_some (item_at (edits bs) id) }
{
    items.get(id).is_some()
}

fn member_under(members: &Versions<u32>, key: u32, items: &ItemStore) -> Option<Member>
    ensures { (bs : List (List Edit)) → item_stands.StandsFor bs items.now
        → option_map pair_of result
        ≡ option_map (λ id. (key, id))
        (option_and_then (there (edits bs)) (newest_value (versions_at key members.now))) }
{
    match members.newest(key) {
        Some(item) => member_of(key, *item, items),
        None => None,
    }
}

fn member_of(key: u32, item: u32, items: &ItemStore) -> Option<Member>
    ensures { (bs : List (List Edit)) → item_stands.StandsFor bs items.now
        → option_map pair_of result ≡ option_map (λ id. (key, id)) (there (edits bs) item) }
{
    if is_there(items, item) {
        return Some(Member { key, item });
    }
    None
}

fn push_some(found: &mut Vec<Member>, member: Option<Member>) -> Result<(), AllocError>
    ensures { OnOk result (map pair_of found.new.items
        ≡ map pair_of found.old.items ++ option_to_list (option_map pair_of member)) }
{
    if let Some(member) = member {
        found.push(member)?;
    }
    Ok(())
}

fn members_under(
    alloc: Global,
    members: &Versions<u32>,
    keys: &[u32],
    items: &ItemStore,
) -> Result<Vec<Member>, AllocError>
    ensures { IfOk result (λ found. (bs : List (List Edit)) → item_stands.StandsFor bs items.now
        → map pair_of found.items
        ≡ pairs_at (λ key. option_and_then (there (edits bs))
        (newest_value (versions_at key members.now))) keys.now) }
{
    let mut found = Vec::new(alloc);
    for key in keys {
        push_some(&mut found, member_under(members, *key, items))?;
    }
    Ok(found)
}

// Returns the members with their items, ascending by key. The values in `members` are those of a list.
pub(crate) fn members(
    alloc: Global,
    members: &Versions<u32>,
    items: &ItemStore,
) -> Result<Vec<Member>, AllocError>
    ensures { IfOk result (λ found. (bs : List (List Edit)) (c : ℕ)
        → item_stands.StandsFor bs items.now → (c == base_list) ≡ false
        → ((key : ℕ) → newest_value (versions_at key members.now) ≡ standing (list_at (edits bs) c) (edits bs) c key)
        → map pair_of found.items ≡ map (λ row. (row.0, row.1.id)) (rows (edits bs) (Container c) None)) }
{
    let keys = members.keys()?;
    members_under(alloc, members, keys.as_slice(), items)
}

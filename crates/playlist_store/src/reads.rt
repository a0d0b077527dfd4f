//! What a store of lists returns.

ghost use Rattle.std.specs.Prelude.{◌≡◌, ◌≤◌, ◌+◌, ◌==◌, ◌++◌, ◌&&◌, ◌||◌, nat_le, List, None, true, false, map, length, option_copied, option_map, IfOk};
ghost use Rattle.std.specs.Map.{keys_of};
ghost use Rattle.item_model.specs.declared.changes.Edit.{Edit};
ghost use Rattle.item_model.specs.declared.request.Target.TheVariants.{Container};
ghost use Rattle.item_store.specs.Stands as item_stands;
ghost use Rattle.item_store.specs.Stands.{floor_of};
ghost use Rattle.share_history.specs.Numbers.{first_revision, base_list};
ghost use Rattle.share_history.specs.Histories.{edits, up_to};
ghost use Rattle.share_history.specs.Kept.{is_kept, touched};
ghost use Rattle.share_history.specs.LastSaid.{list_at};
ghost use Rattle.share_history.specs.Rows.{rows, lists};
ghost use Rattle.playlist_store.specs.Words.{head_of, standing, pair_of};
ghost use Rattle.playlist_store.specs.Stands.{StandsFor};

use crate::head::{ListHead, Member};
use crate::members::members;
use crate::store::PlaylistStore;
use crate::touched::touched;
use crate::{listed, tops};
use item_model::Edit;
use item_store::ItemStore;
use share_history::{BASE_LIST, FIRST_REVISION};
use std::alloc::AllocError;

// Returns whether a base is in the window and at or after the last put or drop of the list.
fn is_kept(keep: u32, revision: u32, list: u32, since: u32, base: u32) -> bool
    ensures { result ≡ (nat_le first_revision base
        && (nat_le base revision
        && (nat_le revision (base + keep) && ((list == base_list) || nat_le since base)))) }
{
    FIRST_REVISION <= base
        && base <= revision
        && u64::from(revision) <= u64::from(base) + u64::from(keep)
        && (list == BASE_LIST || since <= base)
}

impl PlaylistStore {
    /// Returns the name and the rule of an existing list.
    pub fn head(&self, list: u32) -> Option<&ListHead>
        ensures { (bs : List (List Edit)) → StandsFor bs self.now
            → option_copied result ≡ option_map head_of (list_at (edits bs) list) }
    {
        tops::head(&self.lists, list)
    }

    /// Returns the ids of the existing lists, ascending, without container 1.
    /// Returns `AllocError` if allocation fails.
    pub fn lists(&self) -> Result<Vec<u32>, AllocError>
        ensures { IfOk result (λ ids. (bs : List (List Edit)) → StandsFor bs self.now
            → ids.items ≡ keys_of (lists (edits bs))) }
    {
        listed::ids(self.alloc, &self.lists)
    }

    /// Returns the number of existing lists.
    pub fn count(&self) -> u32
        ensures { (bs : List (List Edit)) → StandsFor bs self.now
            → result ≡ length (lists (edits bs)) }
    {
        listed::count(&self.lists)
    }

    /// Returns how many lists there would be after the edits `more`.
    /// Returns `AllocError` if allocation fails.
    pub fn count_after(&self, more: &[Edit]) -> Result<usize, AllocError>
        ensures { IfOk result (λ count. (bs : List (List Edit)) → StandsFor bs self.now
            → count ≡ length (lists (edits bs ++ more.now))) }
    {
        if !listed::has_list(more) {
            return Ok(self.count() as usize);
        }
        let ids = listed::ids(self.alloc, &self.lists)?;
        let mut set = listed::set_of(self.alloc, ids.as_slice())?;
        listed::take_in(&mut set, more)?;
        Ok(set.len())
    }

    /// Returns whether `base` is in the delta window of `list`: recent enough, and with no later put or drop of the
    /// list.
    pub fn kept(&self, list: u32, base: u32) -> bool
        ensures { (bs : List (List Edit)) → StandsFor bs self.now
            → result ≡ is_kept self.now.keep bs (Container list) base }
    {
        let since = tops::since(&self.lists, list);
        is_kept(self.keep, self.revision, list, since, base)
    }

    /// Returns the members of an existing list whose items exist, ascending by key. `items` are those of the same
    /// batches. Container 1 is excluded: its members are the items.
    /// Returns `AllocError` if allocation fails.
    pub fn members(&self, list: u32, items: &ItemStore) -> Result<Option<Vec<Member>>, AllocError>
        requires { (list == base_list) ≡ false }
        ensures { IfOk result (λ found. (bs : List (List Edit)) → StandsFor bs self.now
            → item_stands.StandsFor bs items.now
            → option_map (λ members. map pair_of members.items) found
            ≡ option_map (λ _. map (λ row. (row.0, row.1.id)) (rows (edits bs) (Container list) None)) (list_at (edits bs) list)) }
    {
        match tops::top(&self.lists, list) {
            Some(kept) => {
                if kept.head.is_none() {
                    return Ok(None);
                }
                Ok(Some(members(self.alloc, &kept.members, items)?))
            }
            None => Ok(None),
        }
    }

    /// Returns the keys of `list` that batches after `base` touch, ascending, each once. `items` are those of the
    /// same batches.
    /// Returns `AllocError` if allocation fails.
    pub fn changed_since(
        &self,
        list: u32,
        base: u32,
        items: &ItemStore,
    ) -> Result<Vec<u32>, AllocError>
        requires other { (list == base_list) ≡ false }
        requires from { floor_of self.now.keep self.now.revision ≤ base }
        requires to { base ≤ self.now.revision }
        requires keep { items.now.keep ≡ self.now.keep }
        requires revision { items.now.revision ≡ self.now.revision }
        ensures { IfOk result (λ keys. (bs : List (List Edit)) → StandsFor bs self.now
            → item_stands.StandsFor bs items.now → keys.items ≡ touched bs (Container list) base) }
    {
        match tops::top(&self.lists, list) {
            Some(kept) => match &kept.head {
                Some(head) => {
                    if head.rule.is_some() {
                        return items.changed_since(base);
                    }
                    let passed = base.saturating_sub(self.low) as usize;
                    touched(self.alloc, list, kept, &self.named, passed)
                }
                None => Ok(Vec::new(self.alloc)),
            },
            None => Ok(Vec::new(self.alloc)),
        }
    }

    /// Returns the id of the item under `key` of `list` at `base`, a base in the list's delta window.
    pub fn member_at(&self, list: u32, key: u32, base: u32) -> Option<u32>
        requires { (list == base_list) ≡ false }
        ensures { (bs : List (List Edit)) → StandsFor bs self.now
            → is_kept self.now.keep bs (Container list) base ≡ true
            → result ≡ standing (list_at (edits bs) list) (edits (up_to bs base)) list key }
    {
        tops::member(&self.lists, list, key, base)
    }
}

//! The newest version of a list, by id.

ghost use Rattle.std.specs.Prelude.{◌≡◌, option_copied};
ghost use Rattle.playlist_store.specs.Lists.{top, head_in, since_of, member_in};

use crate::head::ListHead;
use crate::kept::{ListHistory, ListVersion};
use std::collections::BTreeMap;

pub(crate) fn top(lists: &BTreeMap<u32, ListHistory>, list: u32) -> Option<&ListVersion>
    ensures { option_copied result ≡ top lists.now.entries list }
{
    match lists.get(&list) {
        Some(kept) => Some(&kept.now),
        None => None,
    }
}

pub(crate) fn head(lists: &BTreeMap<u32, ListHistory>, list: u32) -> Option<&ListHead>
    ensures { option_copied result ≡ head_in (top lists.now.entries list) }
{
    match top(lists, list) {
        Some(kept) => kept.head.as_ref(),
        None => None,
    }
}

// Returns the revision of the list's last put or drop.
pub(crate) fn since(lists: &BTreeMap<u32, ListHistory>, list: u32) -> u32
    ensures { result ≡ since_of (top lists.now.entries list) }
{
    match top(lists, list) {
        Some(kept) => kept.since,
        None => 0,
    }
}

// Returns the item under `key` at revision `base`.
pub(crate) fn member(
    lists: &BTreeMap<u32, ListHistory>,
    list: u32,
    key: u32,
    base: u32,
) -> Option<u32>
    ensures { result ≡ member_in (top lists.now.entries list) key base }
{
    match top(lists, list) {
        Some(kept) => kept.members.value_at(key, base).copied(),
        None => None,
    }
}

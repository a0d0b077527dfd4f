//! Reverts a batch, whole or as far as it was applied.

ghost use Rattle.std.specs.Prelude.{◌≡◌, ◌≤◌};
ghost use Rattle.playlist_store.specs.Changes.{ChangesOne, Everywhere, ReturnsAt, ReturnsKey, ReturnsMembers, ReturnsItems, TakesBack};

use crate::heads::has_rule;
use crate::kept::ListVersion;
use crate::lists::{Lists, pop_all};
use crate::named::Named;
use key_versions::next_key;

pub(crate) fn take_back(lists: &mut Lists, named: &Named, revision: u32)
    ensures { 1 ≤ revision → TakesBack revision named.now lists.old.entries lists.new.entries }
{
    pop_all(lists, named.lists.as_slice(), revision);
    back_members(lists, named.members.as_slice(), revision);
    if named.items.is_empty() {
        return;
    }
    back_items(lists, named.items.as_slice(), revision);
}

fn back_members(lists: &mut Lists, members: &[(u32, u32)], revision: u32)
    ensures { 1 ≤ revision → ReturnsAt
        (ReturnsMembers revision members.now) lists.old.entries lists.new.entries }
{
    for member in members {
        back_member(lists, member.0, member.1, revision);
    }
}

fn back_member(lists: &mut Lists, id: u32, key: u32, revision: u32)
    ensures { 1 ≤ revision → ChangesOne id
        (ReturnsKey revision key) lists.old.entries lists.new.entries }
{
    match lists.get_mut(&id) {
        Some(list) => list.now.members.take_back(key, revision),
        None => {}
    }
}

// Reverts the members of smart playlists that are among `items`.
fn back_items(lists: &mut Lists, items: &[u32], revision: u32)
    ensures { 1 ≤ revision → Everywhere
        (ReturnsItems revision items.now) lists.old.entries lists.new.entries }
{
    let mut last = None;
    while let Some(id) = next_key(lists, last) {
        back_rule(lists, id, items, revision);
        last = Some(id);
    }
}

fn back_rule(lists: &mut Lists, id: u32, items: &[u32], revision: u32)
    ensures { 1 ≤ revision → ChangesOne id
        (ReturnsItems revision items.now) lists.old.entries lists.new.entries }
{
    match lists.get_mut(&id) {
        Some(list) => back_kept(&mut list.now, items, revision),
        None => {}
    }
}

fn back_kept(kept: &mut ListVersion, items: &[u32], revision: u32)
    ensures { 1 ≤ revision → ReturnsItems revision items.now kept.old kept.new }
{
    if has_rule(&kept.head) {
        kept.members.take_back_all(items, revision);
    }
}

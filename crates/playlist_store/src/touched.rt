//! The keys of a playlist that batches touch.

ghost use Rattle.std.specs.Prelude.{◌≡◌, ◌==◌, ◌&&◌, ◌||◌, ℕ, Bool, drop, IfOk, OnOk};
ghost use Rattle.std.specs.Ordering.{nat_cmp};
ghost use Rattle.std.specs.List.{list_any};
ghost use Rattle.std.specs.List.Sorted.{IsStrictlySortedBy};
ghost use Rattle.key_versions.specs.Found.{newest_value};
ghost use Rattle.key_versions.specs.Held.{versions_at};
ghost use Rattle.playlist_store.specs.Reads.{is_key, is_member, has_item, is_item_of, is_touched_by};

use crate::kept::ListVersion;
use crate::named::Named;
use key_versions::Versions;
use std::alloc::{AllocError, Global};
use std::collections::{BTreeSet, VecDeque};
use std::ops::Bound;

fn has_item(members: &Versions<u32>, key: u32, item: u32) -> bool
    ensures { result ≡ has_item (newest_value (versions_at key members.now)) item }
{
    match members.newest(key) {
        Some(own) => item == *own,
        None => false,
    }
}

fn put_if(keys: &mut BTreeSet<u32>, key: u32, is_wanted: bool) -> Result<(), AllocError>
    ensures { OnOk result ((q : ℕ)
        → is_key q keys.new.keys ≡ (is_key q keys.old.keys || (is_wanted && (key == q)))) }
{
    if is_wanted {
        keys.insert(key)?;
    }
    Ok(())
}

// Adds the keys of those members that are in `list`.
fn put_members(
    keys: &mut BTreeSet<u32>,
    list: u32,
    members: &[(u32, u32)],
) -> Result<(), AllocError>
    ensures { OnOk result ((q : ℕ)
        → is_key q keys.new.keys
        ≡ (is_key q keys.old.keys || list_any (is_member list q) members.now)) }
{
    for member in members {
        put_if(keys, member.1, member.0 == list)?;
    }
    Ok(())
}

// Adds the keys of the members that have `item`.
fn put_item(keys: &mut BTreeSet<u32>, kept: &ListVersion, item: u32) -> Result<(), AllocError>
    ensures { OnOk result ((q : ℕ)
        → is_key q keys.new.keys ≡ (is_key q keys.old.keys || is_item_of kept.now q item)) }
{
    let bounds = (
        Bound::Included((item, 0)),
        Bound::Included((item, u32::MAX)),
    );
    for pair in kept.near.range(bounds) {
        put_if(keys, pair.1, has_item(&kept.members, pair.1, item))?;
    }
    Ok(())
}

fn put_items(keys: &mut BTreeSet<u32>, kept: &ListVersion, items: &[u32]) -> Result<(), AllocError>
    ensures { OnOk result ((q : ℕ)
        → is_key q keys.new.keys
        ≡ (is_key q keys.old.keys || list_any (is_item_of kept.now q) items.now)) }
{
    for item in items {
        put_item(keys, kept, *item)?;
    }
    Ok(())
}

fn put_named(
    keys: &mut BTreeSet<u32>,
    list: u32,
    kept: &ListVersion,
    named: &Named,
) -> Result<(), AllocError>
    ensures { OnOk result ((q : ℕ)
        → is_key q keys.new.keys
        ≡ (is_key q keys.old.keys || is_touched_by kept.now list q named.now)) }
{
    put_members(keys, list, named.members.as_slice())?;
    put_items(keys, kept, named.items.as_slice())
}

fn keys_of(alloc: Global, set: &BTreeSet<u32>) -> Result<Vec<u32>, AllocError>
    ensures keys { IfOk result (λ keys. keys.items ≡ set.now.keys) }
    ensures ascending { IfOk result (λ keys. IsStrictlySortedBy nat_cmp keys.items) }
{
    let mut keys = Vec::new(alloc);
    for key in set {
        keys.push(*key)?;
    }
    Ok(keys)
}

// Returns the keys that the batches after the first `passed` touch, ascending.
pub(crate) fn touched(
    alloc: Global,
    list: u32,
    kept: &ListVersion,
    named: &VecDeque<Named>,
    passed: usize,
) -> Result<Vec<u32>, AllocError>
    ensures keys { IfOk result (λ keys. (q : ℕ)
        → is_key q keys.items ≡ list_any (is_touched_by kept.now list q)
        (drop passed named.now.items)) }
    ensures ascending { IfOk result (λ keys. IsStrictlySortedBy nat_cmp keys.items) }
{
    let mut keys = BTreeSet::new(alloc);
    for index in passed..named.len() {
        put_named(&mut keys, list, kept, &named[index])?;
    }
    keys_of(alloc, &keys)
}

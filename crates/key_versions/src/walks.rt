//! Keys in ascending order.

ghost use Rattle.std.specs.Prelude.{◌≡◌, ◌≤◌, ◌<◌, ◌+◌, ℕ, List, None, is_some, filter, IfOk, IfSome, IfNone};
ghost use Rattle.std.specs.Map.{keys_of};
ghost use Rattle.std.specs.Ordering.{nat_cmp};
ghost use Rattle.std.specs.List.Sorted.{IsStrictlySortedBy};
ghost use Rattle.key_versions.specs.Held.{at, behind};

use crate::by_key::Newest;
use std::alloc::{AllocError, Global};
use std::collections::BTreeMap;
use std::ops::Bound;

// Returns the keys that have a value, ascending.
pub(crate) fn keys<T>(alloc: Global, newest: &Newest<T>) -> Result<Vec<u32>, AllocError>
    ensures keys { IfOk result (λ keys. keys.items
        ≡ keys_of (filter (λ e. is_some e.1.value) newest.now.entries)) }
    ensures ascending { IfOk result (λ _. IsStrictlySortedBy nat_cmp (keys_of newest.now.entries)) }
{
    let mut keys = Vec::new(alloc);
    for (key, last) in newest {
        if last.value.is_some() {
            keys.push(*key)?;
        }
    }
    Ok(keys)
}

/// Returns the first key of `map` after `last`, or of all if `last` is `None`.
pub fn next_key<T>(map: &BTreeMap<u32, T>, last: Option<u32>) -> Option<u32>
    ensures behind { IfSome result (λ key. behind last ≤ key) }
    ensures between { IfSome result (λ key. (q : ℕ) → behind last ≤ q → q < key
        → at q map.now.entries ≡ None) }
    ensures none { IfNone result ((q : ℕ) → behind last ≤ q → at q map.now.entries ≡ None) }
{
    match last {
        Some(key) => key_behind(map, key),
        None => first_key(map),
    }
}

fn first_key<T>(map: &BTreeMap<u32, T>) -> Option<u32>
    ensures between { IfSome result (λ key. (q : ℕ) → q < key → at q map.now.entries ≡ None) }
    ensures none { IfNone result ((q : ℕ) → at q map.now.entries ≡ None) }
{
    match map.first_key_value() {
        Some((key, _)) => Some(*key),
        None => None,
    }
}

fn key_behind<T>(map: &BTreeMap<u32, T>, last: u32) -> Option<u32>
    ensures behind { IfSome result (λ key. last + 1 ≤ key) }
    ensures between { IfSome result (λ key. (q : ℕ) → last + 1 ≤ q → q < key
        → at q map.now.entries ≡ None) }
    ensures none { IfNone result ((q : ℕ) → last + 1 ≤ q → at q map.now.entries ≡ None) }
{
    match map.range((Bound::Excluded(last), Bound::Unbounded)).next() {
        Some((key, _)) => Some(*key),
        None => None,
    }
}

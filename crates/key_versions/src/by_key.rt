//! One key of two maps: the newest versions, and the older ones.

ghost use Rattle.std.specs.Prelude.{◌≡◌, ◌≤◌, ◌<◌, ◌-◌, [], ◌∷◌, ℕ, None, Some, min, nat_le, length, ◌==◌, ◌&&◌, true, false, is_some, option_copied, IfOk, OnOk, OnErr, OnSome, if◌then◌else◌};
ghost use Rattle.key_versions.specs.Found.{found, value_in, newest_value};
ghost use Rattle.key_versions.specs.Held.{at};
ghost use Rattle.key_versions.specs.Joined.{older_at, versions_of, apart_at};

use crate::older::{Older, clear, tidy};
use crate::steps::{pop_oldest, put_over, step_back};
use crate::version::Version;
use std::alloc::{AllocError, Global};
use std::collections::{BTreeMap, VecDeque};

pub(crate) type Newest<T> = BTreeMap<u32, Version<T>>;

// Returns the version of `key` at revision `base`.
pub(crate) fn find<'a, T>(
    newest: &'a Newest<T>,
    older: &'a Older<T>,
    key: u32,
    base: u32,
) -> Option<&'a Version<T>>
    ensures { option_copied result
        ≡ found (apart_at newest.now.entries older.now.entries key) base }
{
    match newest.get(&key) {
        Some(last) => {
            if last.revision <= base {
                return Some(last);
            }
            find_older(older, key, base)
        }
        None => None,
    }
}

fn find_older<T>(older: &Older<T>, key: u32, base: u32) -> Option<&Version<T>>
    ensures { option_copied result ≡ found (older_at key older.now.entries) base }
{
    match older.get(&key) {
        Some(versions) => find_among(versions, base),
        None => None,
    }
}

fn find_among<T>(versions: &VecDeque<Version<T>>, base: u32) -> Option<&Version<T>>
    ensures { option_copied result ≡ found versions.now.items base }
{
    for index in 0..versions.len() {
        if versions[index].revision <= base {
            return Some(&versions[index]);
        }
    }
    None
}

pub(crate) fn value_at<'a, T>(
    newest: &'a Newest<T>,
    older: &'a Older<T>,
    key: u32,
    base: u32,
) -> Option<&'a T>
    ensures { option_copied result
        ≡ value_in (apart_at newest.now.entries older.now.entries key) base }
{
    match find(newest, older, key, base) {
        Some(version) => version.value.as_ref(),
        None => None,
    }
}

pub(crate) fn newest<T>(newest: &Newest<T>, key: u32) -> Option<&T>
    ensures { (older : _) → option_copied result
        ≡ newest_value (versions_of (at key newest.now.entries) older) }
{
    match newest.get(&key) {
        Some(last) => last.value.as_ref(),
        None => None,
    }
}

fn put_first<T: Drop>(
    newest: &mut Newest<T>,
    older: &mut Older<T>,
    key: u32,
    version: Version<T>,
) -> Result<(), AllocError>
    requires { at key newest.old.entries ≡ None }
    ensures found { OnOk result ((q base : ℕ)
        → found (apart_at newest.new.entries older.new.entries q) base
        ≡ (if (key == q) && nat_le version.revision base then Some version
        else found (apart_at newest.old.entries older.old.entries q) base)) }
    ensures unchanged { OnErr result ((q base : ℕ)
        → value_in (apart_at newest.new.entries older.new.entries q) base
        ≡ value_in (apart_at newest.old.entries older.old.entries q) base) }
{
    clear(older, key);
    match newest.insert(key, version) {
        Ok(_) => Ok(()),
        Err(_) => Err(AllocError),
    }
}

// Makes `version` the newest of `key`; it replaces one of the same revision. Returns whether the key had a
// value. For a key without versions, storing `None` is a no-op.
pub(crate) fn put_value<T: Drop>(
    alloc: Global,
    newest: &mut Newest<T>,
    older: &mut Older<T>,
    key: u32,
    version: Version<T>,
) -> Result<bool, AllocError>
    ensures was { IfOk result (λ was. was
        ≡ is_some (newest_value (apart_at newest.old.entries older.old.entries key))) }
    ensures values { OnOk result ((q base : ℕ)
        → value_in (apart_at newest.new.entries older.new.entries q) base
        ≡ (if (key == q) && nat_le version.revision base then version.value
        else value_in (apart_at newest.old.entries older.old.entries q) base)) }
    ensures unchanged { OnErr result ((q base : ℕ)
        → value_in (apart_at newest.new.entries older.new.entries q) base
        ≡ value_in (apart_at newest.old.entries older.old.entries q) base) }
{
    match newest.get_mut(&key) {
        Some(last) => {
            let was = last.value.is_some();
            match put_over(alloc, last, older, key, version) {
                Ok(()) => Ok(was),
                Err(error) => Err(error),
            }
        }
        None => put_first_value(newest, older, key, version),
    }
}

fn put_first_value<T: Drop>(
    newest: &mut Newest<T>,
    older: &mut Older<T>,
    key: u32,
    version: Version<T>,
) -> Result<bool, AllocError>
    requires { at key newest.old.entries ≡ None }
    ensures was { IfOk result (λ was. was ≡ false) }
    ensures values { OnOk result ((q base : ℕ)
        → value_in (apart_at newest.new.entries older.new.entries q) base
        ≡ (if (key == q) && nat_le version.revision base then version.value
        else value_in (apart_at newest.old.entries older.old.entries q) base)) }
    ensures unchanged { OnErr result ((q base : ℕ)
        → value_in (apart_at newest.new.entries older.new.entries q) base
        ≡ value_in (apart_at newest.old.entries older.old.entries q) base) }
{
    if version.value.is_none() {
        return Ok(false);
    }
    match put_first(newest, older, key, version) {
        Ok(()) => Ok(false),
        Err(error) => Err(error),
    }
}

// Removes the versions of `key` from `revision` on.
pub(crate) fn take_back<T: Drop>(
    newest: &mut Newest<T>,
    older: &mut Older<T>,
    key: u32,
    revision: u32,
)
    ensures { 1 ≤ revision → (q base : ℕ)
        → value_in (apart_at newest.new.entries older.new.entries q) base
        ≡ value_in (apart_at newest.old.entries older.old.entries q)
        (if key == q then min base (revision - 1) else base) }
{
    if step_back_at(newest, older, key, revision) {
        tidy(older, key);
        return;
    }
    remove(newest, key);
}

// Returns whether any version is left.
fn step_back_at<T: Drop>(
    newest: &mut Newest<T>,
    older: &mut Older<T>,
    key: u32,
    revision: u32,
) -> bool
    ensures here { 1 ≤ revision → (base : ℕ)
        → found (if result then apart_at newest.new.entries older.new.entries key else []) base
        ≡ found (apart_at newest.old.entries older.old.entries key) (min base (revision - 1)) }
    ensures others { (q : ℕ) → (key == q) ≡ false
        → apart_at newest.new.entries older.new.entries q
        ≡ apart_at newest.old.entries older.old.entries q }
{
    match newest.get_mut(&key) {
        Some(last) => step_back_from(last, older, key, revision),
        None => true,
    }
}

fn step_back_from<T: Drop>(
    last: &mut Version<T>,
    older: &mut Older<T>,
    key: u32,
    revision: u32,
) -> bool
    ensures here { 1 ≤ revision → (base : ℕ)
        → found (if result then last.new ∷ older_at key older.new.entries else []) base
        ≡ found (last.old ∷ older_at key older.old.entries) (min base (revision - 1)) }
    ensures others { (q : ℕ) → (key == q) ≡ false
        → older_at q older.new.entries ≡ older_at q older.old.entries }
{
    match older.get_mut(&key) {
        Some(versions) => step_back(last, versions, revision),
        None => last.revision < revision,
    }
}

fn remove<T: Drop>(newest: &mut Newest<T>, key: u32)
    ensures { (q : ℕ) → at q newest.new.entries
        ≡ (if key == q then None else at q newest.old.entries) }
{
    newest.remove(&key);
}

// Removes the oldest version of `key`, if no revision from `low` on finds it, and returns it.
pub(crate) fn pop_past<T: Drop>(
    newest: &Newest<T>,
    older: &mut Older<T>,
    key: u32,
    low: u32,
) -> Option<Version<T>>
    ensures values { (q base : ℕ) → low ≤ base
        → value_in (apart_at newest.now.entries older.new.entries q) base
        ≡ value_in (apart_at newest.now.entries older.old.entries q) base }
    ensures fewer { OnSome result
        (length (apart_at newest.now.entries older.new.entries key)
        < length (apart_at newest.now.entries older.old.entries key)) }
{
    match newest.get(&key) {
        Some(last) => pop_behind(last.revision, older, key, low),
        None => None,
    }
}

fn pop_behind<T: Drop>(
    revision: u32,
    older: &mut Older<T>,
    key: u32,
    low: u32,
) -> Option<Version<T>>
    ensures here { (now : Version T) (base : ℕ) → now.revision ≡ revision → low ≤ base
        → found (now ∷ older_at key older.new.entries) base
        ≡ found (now ∷ older_at key older.old.entries) base }
    ensures others { (q : ℕ) → (key == q) ≡ false
        → older_at q older.new.entries ≡ older_at q older.old.entries }
    ensures fewer { OnSome result
        (length (older_at key older.new.entries) < length (older_at key older.old.entries)) }
{
    let popped = pop_at(revision, older, key, low);
    tidy(older, key);
    popped
}

fn pop_at<T: Drop>(revision: u32, older: &mut Older<T>, key: u32, low: u32) -> Option<Version<T>>
    ensures here { (now : Version T) (base : ℕ) → now.revision ≡ revision → low ≤ base
        → found (now ∷ older_at key older.new.entries) base
        ≡ found (now ∷ older_at key older.old.entries) base }
    ensures others { (q : ℕ) → (key == q) ≡ false
        → older_at q older.new.entries ≡ older_at q older.old.entries }
    ensures fewer { OnSome result
        (length (older_at key older.new.entries) < length (older_at key older.old.entries)) }
{
    match older.get_mut(&key) {
        Some(versions) => pop_oldest(revision, versions, low),
        None => None,
    }
}

fn trim<T: Drop>(newest: &Newest<T>, older: &mut Older<T>, key: u32, low: u32)
    ensures { (q base : ℕ) → low ≤ base
        → value_in (apart_at newest.now.entries older.new.entries q) base
        ≡ value_in (apart_at newest.now.entries older.old.entries q) base }
{
    while let Some(_) = pop_past(newest, older, key, low) {}
}

// Removes all versions of `key` that no revision from `low` on finds, and the key if it has no value from then on.
pub(crate) fn prune<T: Drop>(newest: &mut Newest<T>, older: &mut Older<T>, key: u32, low: u32)
    ensures { (q base : ℕ) → low ≤ base
        → value_in (apart_at newest.new.entries older.new.entries q) base
        ≡ value_in (apart_at newest.old.entries older.old.entries q) base }
{
    trim(newest, older, key, low);
    if is_gone(newest, key, low) {
        remove_all(newest, older, key);
    }
}

fn remove_all<T: Drop>(newest: &mut Newest<T>, older: &mut Older<T>, key: u32)
    ensures { (q : ℕ) → apart_at newest.new.entries older.new.entries q
        ≡ (if key == q then [] else apart_at newest.old.entries older.old.entries q) }
{
    remove(newest, key);
    clear(older, key);
}

fn is_gone<T>(newest: &Newest<T>, key: u32, low: u32) -> bool
    ensures { result ≡ true → (older : _) (base : ℕ) → low ≤ base
        → value_in (versions_of (at key newest.now.entries) older) base ≡ None }
{
    match newest.get(&key) {
        Some(last) => last.value.is_none() && last.revision <= low,
        None => false,
    }
}

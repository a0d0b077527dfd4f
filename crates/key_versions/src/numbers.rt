//! Values that are numbers, which can be compared.

ghost use Rattle.std.specs.Prelude.{◌≡◌, ◌≤◌, ℕ, List, Some, nat_le, ◌==◌, ◌&&◌, true, OnOk, OnErr, if◌then◌else◌};
ghost use Rattle.key_versions.specs.declared.version.Version.{Version};
ghost use Rattle.key_versions.specs.Found.{value_in};
ghost use Rattle.key_versions.specs.Held.{at};
ghost use Rattle.key_versions.specs.Joined.{older_at, versions_of, apart_at};

use crate::by_key::{self, Newest};
use crate::older::Older;
use crate::version::Version;
use std::alloc::{AllocError, Global};
use std::collections::VecDeque;

// Makes `version` the newest of `key`, unless the key already has its value at its revision.
pub(crate) fn put(
    alloc: Global,
    newest: &mut Newest<u32>,
    older: &mut Older<u32>,
    key: u32,
    version: Version<u32>,
) -> Result<(), AllocError>
    ensures values { OnOk result ((q base : ℕ)
        → value_in (apart_at newest.new.entries older.new.entries q) base
        ≡ (if (key == q) && nat_le version.revision base then version.value
        else value_in (apart_at newest.old.entries older.old.entries q) base)) }
    ensures unchanged { OnErr result ((q base : ℕ)
        → value_in (apart_at newest.new.entries older.new.entries q) base
        ≡ value_in (apart_at newest.old.entries older.old.entries q) base) }
{
    if is_said(newest, key, &version) {
        return Ok(());
    }
    match by_key::put_value(alloc, newest, older, key, version) {
        Ok(_) => Ok(()),
        Err(error) => Err(error),
    }
}

// Returns whether the newest version of `key` has the value of `version` and is not later.
fn is_said(newest: &Newest<u32>, key: u32, version: &Version<u32>) -> bool
    ensures { result ≡ true → (older : List (Version ℕ)) (base : ℕ) → version.now.revision ≤ base
        → value_in (versions_of (at key newest.now.entries) older) base ≡ version.now.value }
{
    match newest.get(&key) {
        Some(last) => last.revision <= version.revision && is_same(last.value, version.value),
        None => version.value.is_none(),
    }
}

fn is_same(one: Option<u32>, other: Option<u32>) -> bool
    ensures { result ≡ true → one ≡ other }
{
    match one {
        Some(number) => is_number(other, number),
        None => other.is_none(),
    }
}

fn is_number(value: Option<u32>, number: u32) -> bool
    ensures found { value ≡ Some number → result ≡ true }
    ensures is { result ≡ true → value ≡ Some number }
{
    match value {
        Some(found) => found == number,
        None => false,
    }
}

// Returns whether some version of `key` has the number.
pub(crate) fn is_held(newest: &Newest<u32>, older: &Older<u32>, key: u32, number: u32) -> bool
    ensures { (base : ℕ) → value_in (apart_at newest.now.entries older.now.entries key) base
        ≡ Some number → result ≡ true }
{
    match newest.get(&key) {
        Some(last) => is_number(last.value, number) || is_held_before(older, key, number),
        None => false,
    }
}

fn is_held_before(older: &Older<u32>, key: u32, number: u32) -> bool
    ensures { (base : ℕ) → value_in (older_at key older.now.entries) base ≡ Some number
        → result ≡ true }
{
    match older.get(&key) {
        Some(versions) => is_among(versions, number),
        None => false,
    }
}

fn is_among(versions: &VecDeque<Version<u32>>, number: u32) -> bool
    ensures { (base : ℕ) → value_in versions.now.items base ≡ Some number → result ≡ true }
{
    for index in 0..versions.len() {
        if is_number(versions[index].value, number) {
            return true;
        }
    }
    false
}

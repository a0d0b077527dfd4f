//! The versions before the newest of each key, newest first. Few keys have any.

ghost use Rattle.std.specs.Prelude.{◌≡◌, ◌≤◌, ◌<◌, ◌-◌, ◌∷◌, [], ℕ, ◌==◌, true, false, length, take, min, IsSomeAnd, IsNone, OnOk, if◌then◌else◌};
ghost use Rattle.std.specs.VecDeque.{deque_len, deque_capacity};
ghost use Rattle.key_versions.specs.declared.version.Version.{Version};
ghost use Rattle.key_versions.specs.Found.{found};
ghost use Rattle.key_versions.specs.Held.{at};
ghost use Rattle.key_versions.specs.Joined.{older_at};

use crate::version::Version;
use std::alloc::{AllocError, Global};
use std::collections::{BTreeMap, VecDeque};

pub(crate) type Older<T> = BTreeMap<u32, VecDeque<Version<T>>>;

// Reserves capacity for one more version of `key`.
pub(crate) fn make_room<T: Drop>(
    alloc: Global,
    older: &mut Older<T>,
    key: u32,
) -> Result<(), AllocError>
    ensures same { (q : ℕ) → older_at q older.new.entries ≡ older_at q older.old.entries }
    ensures room { OnOk result (IsSomeAnd (at key older.new.entries)
        (λ versions. deque_len versions < deque_capacity versions)) }
{
    match older.get_mut(&key) {
        Some(versions) => versions.reserve(1),
        None => add_room(alloc, older, key),
    }
}

fn add_room<T: Drop>(alloc: Global, older: &mut Older<T>, key: u32) -> Result<(), AllocError>
    requires { at key older.old.entries ≡ None }
    ensures same { (q : ℕ) → older_at q older.new.entries ≡ older_at q older.old.entries }
    ensures room { OnOk result (IsSomeAnd (at key older.new.entries)
        (λ versions. deque_len versions < deque_capacity versions)) }
{
    let mut versions = VecDeque::new(alloc);
    match versions.reserve(1) {
        Ok(()) => {}
        Err(error) => return Err(error),
    }
    match older.insert(key, versions) {
        Ok(_) => Ok(()),
        Err(_) => Err(AllocError),
    }
}

// Puts `version` before the others of `key`, in reserved capacity.
pub(crate) fn push<T: Drop>(older: &mut Older<T>, key: u32, version: Version<T>)
    requires { IsSomeAnd (at key older.old.entries)
        (λ versions. deque_len versions < deque_capacity versions) }
    ensures here { older_at key older.new.entries ≡ version ∷ older_at key older.old.entries }
    ensures others { (q : ℕ) → (key == q) ≡ false
        → older_at q older.new.entries ≡ older_at q older.old.entries }
{
    match older.get_mut(&key) {
        Some(versions) => versions.push_front_reserved(version),
        None => {}
    }
}

// Removes the entry of `key` if it has no versions.
pub(crate) fn tidy<T: Drop>(older: &mut Older<T>, key: u32)
    ensures { (q : ℕ) → older_at q older.new.entries ≡ older_at q older.old.entries }
{
    if is_empty(older, key) {
        clear(older, key);
    }
}

fn is_empty<T>(older: &Older<T>, key: u32) -> bool
    ensures { result ≡ true → older_at key older.now.entries ≡ [] }
{
    match older.get(&key) {
        Some(versions) => versions.is_empty(),
        None => false,
    }
}

// Removes the entry of `key`.
pub(crate) fn clear<T: Drop>(older: &mut Older<T>, key: u32)
    ensures { (q : ℕ) → older_at q older.new.entries
        ≡ (if key == q then [] else older_at q older.old.entries) }
{
    older.remove(&key);
}

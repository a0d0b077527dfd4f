//! Versions by key.

ghost use Rattle.std.specs.Prelude.{◌≡◌, ◌≤◌, ◌<◌, ◌-◌, [], ℕ, None, Some, min, nat_le, ◌==◌, ◌&&◌, true, is_some, length, option_copied, IfOk, OnOk, OnErr, OnSome, if◌then◌else◌};
ghost use Rattle.key_versions.specs.Found.{newest_value};
ghost use Rattle.key_versions.specs.Held.{versions_at, value_at, is_among, AreKeys};

use crate::by_key::{self, Newest};
use crate::older::Older;
use crate::version::Version;
use crate::{numbers, walks};
use std::alloc::{AllocError, Global};
use std::collections::BTreeMap;
use std::marker::Model;

/// Values under keys, each with its earlier values by revision. A key with one version costs only that version.
pub struct Versions<T> {
    alloc: Global,
    newest: Newest<T>,
    older: Older<T>,
}

impl<T: Drop> Drop for Versions<T> {
    fn drop(self) {
        let Versions {
            alloc: _,
            newest: _,
            older: _,
        } = self;
    }
}

impl<T> Model for Versions<T> {
    ghost use Rattle.std.specs.Prelude.{ℕ, List};
    ghost use Rattle.key_versions.specs.declared.version.Version.{Version};
    ghost use Rattle.key_versions.specs.Joined.{joined};

    ghost Value = { List (ℕ × List (Version T)) };

    ghost view = { λ a. joined a.newest.entries a.older.entries };
}

impl<T> Versions<T> {
    /// Returns a map without keys. Does not allocate.
    pub fn new(alloc: Global) -> Versions<T>
        ensures { result ≡ [] }
    {
        Versions {
            alloc,
            newest: BTreeMap::new(alloc),
            older: BTreeMap::new(alloc),
        }
    }

    /// Returns the newest value of `key`.
    pub fn newest(&self, key: u32) -> Option<&T>
        ensures { option_copied result ≡ newest_value (versions_at key self.now) }
    {
        by_key::newest(&self.newest, key)
    }

    /// Returns the value of `key` at revision `base`.
    pub fn value_at(&self, key: u32, base: u32) -> Option<&T>
        ensures { option_copied result ≡ value_at self.now key base }
    {
        by_key::value_at(&self.newest, &self.older, key, base)
    }

    /// Returns the keys whose newest version has a value, ascending.
    pub fn keys(&self) -> Result<Vec<u32>, AllocError>
        ensures { IfOk result (λ keys. AreKeys self.now keys.items) }
    {
        walks::keys(self.alloc, &self.newest)
    }
}

impl<T: Drop> Versions<T> {
    /// Sets the value of `key` from `revision` on, and returns whether the key had a value. For a key without
    /// versions, storing `None` is a no-op.
    /// Returns `AllocError` if allocation fails; all values are then unchanged.
    pub fn put_value(
        &mut self,
        key: u32,
        revision: u32,
        value: Option<T>,
    ) -> Result<bool, AllocError>
        ensures was { IfOk result (λ was. was ≡ is_some (newest_value (versions_at key self.old))) }
        ensures values { OnOk result ((q base : ℕ)
            → value_at self.new q base
            ≡ (if (key == q) && nat_le revision base then value else value_at self.old q base)) }
        ensures unchanged { OnErr result ((q base : ℕ)
            → value_at self.new q base ≡ value_at self.old q base) }
    {
        by_key::put_value(
            self.alloc,
            &mut self.newest,
            &mut self.older,
            key,
            Version { revision, value },
        )
    }

    /// Removes the versions of `key` from `revision` on. Does not allocate.
    pub fn take_back(&mut self, key: u32, revision: u32)
        ensures { 1 ≤ revision → (q base : ℕ)
            → value_at self.new q base
            ≡ value_at self.old q (if key == q then min base (revision - 1) else base) }
    {
        by_key::take_back(&mut self.newest, &mut self.older, key, revision);
    }

    /// Does the same for each of `keys`.
    pub fn take_back_all(&mut self, keys: &[u32], revision: u32)
        ensures { 1 ≤ revision → (q base : ℕ)
            → value_at self.new q base
            ≡ value_at self.old q (if is_among q keys.now then min base (revision - 1) else base) }
    {
        for key in keys {
            self.take_back(*key, revision);
        }
    }

    /// Removes the oldest version of `key`, if no revision from `low` on finds it, and returns it.
    pub fn pop_past(&mut self, key: u32, low: u32) -> Option<Version<T>>
        ensures values { (q base : ℕ) → low ≤ base
            → value_at self.new q base ≡ value_at self.old q base }
        ensures fewer { OnSome result
            (length (versions_at key self.new) < length (versions_at key self.old)) }
    {
        by_key::pop_past(&self.newest, &mut self.older, key, low)
    }

    /// Removes all versions of `key` that no revision from `low` on finds, and the key if it has no value from then
    /// on.
    pub fn prune(&mut self, key: u32, low: u32)
        ensures { (q base : ℕ) → low ≤ base → value_at self.new q base ≡ value_at self.old q base }
    {
        by_key::prune(&mut self.newest, &mut self.older, key, low);
    }

    /// Does the same for each of `keys`.
    pub fn prune_all(&mut self, keys: &[u32], low: u32)
        ensures { (q base : ℕ) → low ≤ base → value_at self.new q base ≡ value_at self.old q base }
    {
        for key in keys {
            self.prune(*key, low);
        }
    }
}

impl Versions<u32> {
    /// Sets the number of `key`, or `None`, from `revision` on. Adds no version if the newest one already says so.
    /// Returns `AllocError` if allocation fails; all values are then unchanged.
    pub fn put_number(
        &mut self,
        key: u32,
        revision: u32,
        number: Option<u32>,
    ) -> Result<(), AllocError>
        ensures values { OnOk result ((q base : ℕ)
            → value_at self.new q base
            ≡ (if (key == q) && nat_le revision base then number else value_at self.old q base)) }
        ensures unchanged { OnErr result ((q base : ℕ)
            → value_at self.new q base ≡ value_at self.old q base) }
    {
        numbers::put(
            self.alloc,
            &mut self.newest,
            &mut self.older,
            key,
            Version {
                revision,
                value: number,
            },
        )
    }

    /// Returns whether some version of `key` has `number`.
    pub fn has_number(&self, key: u32, number: u32) -> bool
        ensures { (base : ℕ) → value_at self.now key base ≡ Some number → result ≡ true }
    {
        numbers::is_held(&self.newest, &self.older, key, number)
    }
}

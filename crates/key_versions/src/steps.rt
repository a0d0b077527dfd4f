//! Operations on the newest version of a key and those before it.

ghost use Rattle.std.specs.Prelude.{◌≡◌, ◌≤◌, ◌<◌, ◌-◌, ◌∷◌, [], ℕ, ◌==◌, true, false, length, take, min, nat_le, Some, OnOk, OnErr, OnSome, if◌then◌else◌};
ghost use Rattle.key_versions.specs.declared.version.Version.{Version};
ghost use Rattle.key_versions.specs.Found.{found};
ghost use Rattle.key_versions.specs.Joined.{older_at};

use crate::older::{Older, make_room, push};
use crate::version::Version;
use std::alloc::{AllocError, Global};
use std::collections::VecDeque;
use std::mem;

// Makes `version` the newest of `key`; it replaces one of the same revision.
pub(crate) fn put_over<T: Drop>(
    alloc: Global,
    newest: &mut Version<T>,
    older: &mut Older<T>,
    key: u32,
    version: Version<T>,
) -> Result<(), AllocError>
    ensures found { OnOk result ((base : ℕ)
        → found (newest.new ∷ older_at key older.new.entries) base
        ≡ (if nat_le version.revision base then Some version
        else found (newest.old ∷ older_at key older.old.entries) base)) }
    ensures others { (q : ℕ) → (key == q) ≡ false
        → older_at q older.new.entries ≡ older_at q older.old.entries }
    ensures newest_left { OnErr result (newest.new ≡ newest.old) }
    ensures older_left { OnErr result
        (older_at key older.new.entries ≡ older_at key older.old.entries) }
{
    if newest.revision == version.revision {
        *newest = version;
        return Ok(());
    }
    match make_room(alloc, older, key) {
        Ok(()) => {}
        Err(error) => return Err(error),
    }
    let last = mem::replace(newest, version);
    push(older, key, last);
    Ok(())
}

// Removes the versions from `revision` on, and returns whether any is left.
pub(crate) fn step_back<T: Drop>(
    newest: &mut Version<T>,
    older: &mut VecDeque<Version<T>>,
    revision: u32,
) -> bool
    ensures { 1 ≤ revision → (base : ℕ)
        → found (if result then newest.new ∷ older.new.items else []) base
        ≡ found (newest.old ∷ older.old.items) (min base (revision - 1)) }
{
    while revision <= newest.revision {
        match older.pop_front() {
            Some(version) => *newest = version,
            None => return false,
        }
    }
    true
}

// Removes the oldest version, if no revision from `low` on finds it, and returns it.
pub(crate) fn pop_oldest<T: Drop>(
    newest: u32,
    older: &mut VecDeque<Version<T>>,
    low: u32,
) -> Option<Version<T>>
    ensures past { (now : Version T) (base : ℕ) → now.revision ≡ newest → low ≤ base
        → found (now ∷ older.new.items) base ≡ found (now ∷ older.old.items) base }
    ensures fewer { OnSome result (length older.new.items < length older.old.items) }
{
    if is_past(newest, older, low) {
        return older.pop_back();
    }
    None
}

// Returns whether the version after the oldest has a revision of at most `low`.
#[tactic(auto, using(crate::proofs::FoundFacts::past_one, crate::proofs::FoundFacts::past_more))]
fn is_past<T>(newest: u32, older: &VecDeque<Version<T>>, low: u32) -> bool
    ensures some { result ≡ true → 0 < length older.now.items }
    ensures past { result ≡ true → (now : Version T) (base : ℕ) → now.revision ≡ newest → low ≤ base
        → found (now ∷ take (length older.now.items - 1) older.now.items) base
        ≡ found (now ∷ older.now.items) base }
{
    let len = older.len();
    if len == 0 {
        return false;
    }
    if len == 1 {
        return newest <= low;
    }
    older[len - 2].revision <= low
}

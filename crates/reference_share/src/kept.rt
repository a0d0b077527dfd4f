//! The delta window and touched keys.

ghost use Rattle.std.specs.Prelude.{◌≡◌, ◌<◌, ◌^◌, ◌∷◌, [], ◌++◌, IfOk, OnOk, if◌then◌else◌, option_map};
ghost use Rattle.share_history.specs.Histories.{batches, revision, all_edits};
ghost use Rattle.share_history.specs.Kept.{is_left, is_kept, names_its_item, touches_in, touches, touched};
ghost use Rattle.reference_share.specs.PlaylistSeen.{playlist_of};

use crate::keys::keys;
use crate::lists::{PlaylistRef, list, member};
use crate::names::{Named, is_named};
use crate::revisions::{after, revision};
use item_model::{Entry, Target};
use share_history::{BASE_LIST, FIRST_REVISION};
use std::alloc::{AllocError, Global};

// Returns whether the entries neither put nor drop the target as a list.
fn is_left(target: Target, entries: &[Entry]) -> bool
    ensures { result ≡ is_left target (all_edits entries.now) }
{
    match target {
        Target::Items => true,
        Target::Container(id) => id == BASE_LIST || !is_named(entries, Named::List(id)),
    }
}

/// Returns whether `base` is in the delta window of a listing.
pub fn is_kept(keep: u32, history: &[Entry], target: Target, base: u32) -> bool
    requires { revision (batches history.now) < 2 ^ 32 }
    ensures { result ≡ is_kept keep (batches history.now) target base }
{
    let revision = revision(history);
    FIRST_REVISION <= base
        && base <= revision
        && u64::from(revision) <= u64::from(base) + u64::from(keep)
        && is_left(target, after(history, base))
}

fn is_item_named(entries: &[Entry], item: Option<u32>) -> bool
    ensures { result ≡ names_its_item item (all_edits entries.now) }
{
    match item {
        Some(id) => is_named(entries, Named::Item(id)),
        None => false,
    }
}

fn is_touched_in(
    found: Option<PlaylistRef<'_>>,
    history: &[Entry],
    id: u32,
    later: &[Entry],
    key: u32,
) -> bool
    ensures { result ≡ touches_in (option_map playlist_of found.entry) (all_edits history.now) id
        (all_edits later.now) key }
{
    match found {
        None => false,
        Some(PlaylistRef::Plain { .. }) => {
            is_named(
                later,
                Named::Member {
                    list: id,
                    member: key,
                },
            ) || is_item_named(later, member(history, id, key))
        }
        Some(PlaylistRef::Ruled { .. }) => is_named(later, Named::Item(key)),
    }
}

/// Returns whether the `later` entries, the last of the history, touch a key of the target.
pub fn is_touched(history: &[Entry], target: Target, later: &[Entry], key: u32) -> bool
    ensures { result ≡ touches (all_edits history.now) target (all_edits later.now) key }
{
    match target {
        Target::Container(id) if id != BASE_LIST => {
            is_touched_in(list(history, id), history, id, later, key)
        }
        _ => is_named(later, Named::Item(key)),
    }
}

// Pushes the key if it is wanted.
pub(crate) fn push_if(keys: &mut Vec<u32>, key: u32, is_wanted: bool) -> Result<(), AllocError>
    ensures { OnOk result (keys.new.items
        ≡ keys.old.items ++ (if is_wanted then key ∷ [] else [])) }
{
    if is_wanted {
        keys.push(key)?;
    }
    Ok(())
}

/// Returns the keys touched after `base`, ascending.
pub fn touched(
    alloc: Global,
    history: &[Entry],
    target: Target,
    base: u32,
) -> Result<Vec<u32>, AllocError>
    ensures { IfOk result (λ keys. keys.items ≡ touched (batches history.now) target base) }
{
    let later = after(history, base);
    let mut touched = Vec::new(alloc);
    for key in &keys(alloc, history)? {
        push_if(&mut touched, *key, is_touched(history, target, later, *key))?;
    }
    Ok(touched)
}

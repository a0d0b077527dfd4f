//! The limits of a share.

ghost use Rattle.std.specs.Prelude.{◌≡◌, ◌<◌, ◌+◌, ◌^◌, IfOk, count_by, length, if◌then◌else◌};
ghost use Rattle.share_history.specs.Histories.{all_edits};
ghost use Rattle.share_history.specs.Limits.{is_limited, is_below_entry_limit, has_room_for, has_few_lists, takes_batch};

use crate::databases::playlists_with;
use crate::revisions::edits_of;
use item_model::{Batch, Edit, Entry};
use share_history::{MAX_EDITS, MAX_ENTRIES, MAX_LISTS};
use std::alloc::{AllocError, Global};

fn is_limited_entry(entry: &Entry) -> bool
    ensures { result ≡ is_limited entry.now }
{
    matches!(entry, Entry::Edits { .. } | Entry::Login { .. })
}

fn count_with(count: usize, entry: &Entry) -> usize
    requires { count < usize.MAX }
    ensures { result ≡ count + (if is_limited entry.now then 1 else 0) }
{
    if is_limited_entry(entry) {
        count + 1
    } else {
        count
    }
}

/// Returns whether one more login or batch is within the limit on entries.
#[tactic(auto, using(crate::proofs::LoginFacts::count_more))]
pub fn is_below_entry_limit(history: &[Entry]) -> bool
    ensures { result ≡ is_below_entry_limit history.now }
{
    let mut count = 0;
    for entry in history {
        count = count_with(count, entry);
    }
    count < MAX_ENTRIES
}

/// Returns whether `count` more edits are within the limit on edits.
#[tactic(auto, using(crate::proofs::LoopFacts::edits_left))]
pub fn has_room_for(history: &[Entry], count: usize) -> bool
    ensures { result ≡ has_room_for history.now count }
{
    if count > MAX_EDITS {
        return false;
    }
    let mut left = MAX_EDITS - count;
    for entry in history {
        let brought = edits_of(entry).len();
        if brought > left {
            return false;
        }
        left -= brought;
    }
    true
}

// Returns whether the lists after `edits` are within their limit.
#[tactic(auto, using(crate::proofs::CountFacts::counted_lists))]
fn has_few_lists(alloc: Global, history: &[Entry], edits: &[Edit]) -> Result<bool, AllocError>
    ensures { IfOk result (λ has. has ≡ has_few_lists history.now edits.now) }
{
    let lists = playlists_with(alloc, history, edits)?;
    Ok(lists.len() <= MAX_LISTS)
}

/// Returns whether a batch is within all limits.
pub fn takes_batch(alloc: Global, history: &[Entry], batch: &Batch) -> Result<bool, AllocError>
    ensures { IfOk result (λ takes. takes ≡ takes_batch history.now batch.now) }
{
    let edits = batch.edits.as_slice();
    if !is_below_entry_limit(history) || !has_room_for(history, edits.len()) {
        return Ok(false);
    }
    has_few_lists(alloc, history, edits)
}

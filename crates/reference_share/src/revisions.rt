//! Revisions, and the parts of a history before and after one.

ghost use Rattle.std.specs.Prelude.{◌≡◌, ◌<◌, ◌-◌, ◌^◌, ◌∷◌, [], drop, length};
ghost use Rattle.share_history.specs.Histories.{at_revision, batches, edits_in, revision};
ghost use Rattle.share_history.specs.Numbers.{first_revision};

use item_model::{Edit, Entry};
use share_history::{FIRST_REVISION, revision_after};

// Returns the edits of an entry.
pub(crate) fn edits_of(entry: &Entry) -> &[Edit]
    ensures { result.now ≡ edits_in entry.now }
{
    match entry {
        Entry::Edits { batch, .. } => batch.edits.as_slice(),
        _ => &[],
    }
}

/// Returns the revision of a history.
#[tactic(auto, using(crate::proofs::LoopFacts::revisions_left))]
pub fn revision(history: &[Entry]) -> u32
    requires { revision (batches history.now) < 2 ^ 32 }
    ensures { result ≡ revision (batches history.now) }
{
    let mut revision = FIRST_REVISION;
    for entry in history {
        revision = revision_after(revision, entry);
    }
    revision
}

// Returns how many of `left` batches remain after the entry; `left` is at least 1 for a batch.
fn left_behind(left: u32, entry: &Entry) -> u32
    requires { 0 < left }
    ensures { result ≡ left - length (batches (entry.now ∷ [])) }
{
    match entry {
        Entry::Edits { .. } => left - 1,
        _ => left,
    }
}

/// Returns the history up to and with the batch that makes `revision`: nothing for the first revision, all past the
/// last.
#[tactic(auto, using(crate::proofs::LoopFacts::until_left))]
pub fn at_revision(history: &[Entry], revision: u32) -> &[Entry]
    ensures { result.now ≡ at_revision history.now revision }
{
    let mut left = revision.saturating_sub(FIRST_REVISION);
    for (place, entry) in history.iter().enumerate() {
        if left == 0 {
            let (front, _) = history.split_at(place);
            return front;
        }
        left = left_behind(left, entry);
    }
    history
}

/// Returns the entries after the batch that makes `revision`: all for the first revision, none past the last.
#[tactic(auto, using(crate::proofs::LoopFacts::batches_left))]
pub fn after(history: &[Entry], revision: u32) -> &[Entry]
    ensures { batches result.now ≡ drop (revision - first_revision) (batches history.now) }
{
    let mut left = revision.saturating_sub(FIRST_REVISION);
    for (place, entry) in history.iter().enumerate() {
        if left == 0 {
            let (_, rest) = history.split_at(place);
            return rest;
        }
        left = left_behind(left, entry);
    }
    &[]
}

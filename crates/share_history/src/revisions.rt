//! How an entry changes the revision.

ghost use Rattle.std.specs.Prelude.{◌≡◌, ◌<◌, ◌+◌, ◌^◌, ◌∷◌, [], length};
ghost use Rattle.share_history.specs.Histories.{batches};

use item_model::Entry;

/// Returns the revision after `entry`: the next one if `entry` is a batch, else `revision`.
pub fn revision_after(revision: u32, entry: &Entry) -> u32
    requires { revision + length (batches (entry.now ∷ [])) < 2 ^ 32 }
    ensures { result ≡ revision + length (batches (entry.now ∷ [])) }
{
    match entry {
        Entry::Edits { .. } => revision + 1,
        _ => revision,
    }
}

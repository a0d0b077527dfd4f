//! Theorems about workers. Each function has an empty body; its contract is the theorem.

ghost use Rattle.share_workers.specs.Keepers.{KeepsHistory};

use edit_keeping::Keeps;

/// If only one worker edits a share, its keeper has the batches of the history, but for the last if that was lost.
pub fn keepers_keep_the_history<F: Keeps>()
    ensures { (before after : F) → KeepsHistory F.Keeps before after }
{}

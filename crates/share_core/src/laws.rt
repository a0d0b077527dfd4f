//! Theorems about all answers. Each function has an empty body; its contract is the theorem.

ghost use Rattle.share_core.specs.Laws.{AnswersGrow, AnswersKeepWhole};

/// An answer leaves the settings unchanged, and appends only entries of the handle that asked.
pub fn answers_grow()
    ensures { AnswersGrow }
{}

/// A whole history stays whole with the entries that answers append: within all limits.
pub fn answers_keep_whole()
    ensures { AnswersKeepWhole }
{}

//! What holds for all texts. Each function has an empty body; its contract is a theorem.

ghost use Rattle.song_query.specs.Laws.{AnswersAreOne, TextsHaveAnswers, TextsReadOnce};

/// A text reads as at most one query.
pub fn a_text_reads_as_one_query()
    ensures { TextsReadOnce }
{}

/// A text reads as a query within the limits, or has an error.
pub fn a_text_has_an_answer()
    ensures { TextsHaveAnswers }
{}

/// A text does not both read and have an error, and has one error at one offset at most.
pub fn a_text_has_one_answer()
    ensures { AnswersAreOne }
{}

//! What holds for all rows. Each function has an empty body; its contract is a theorem.

ghost use Rattle.records_import.specs.Laws.{AnswersAreOne, RowsHaveAnswers, RowsReadOnce};

/// Rows read as at most one batch.
pub fn rows_read_as_one_batch()
    ensures { RowsReadOnce }
{}

/// Rows read as a batch, or have an error.
pub fn rows_have_an_answer()
    ensures { RowsHaveAnswers }
{}

/// Rows do not both read and have an error, and have one error at one place at most.
pub fn rows_have_one_answer()
    ensures { AnswersAreOne }
{}

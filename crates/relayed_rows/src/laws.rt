//! Laws of all rows, libraries and histories. Each function has an empty body; its contract is a theorem about the
//! definitions.

ghost use Rattle.relayed_rows.specs.Laws.{RowsReadBack, LibrariesReadBack, RowsAreToldApart, DifferencesApply, DifferencesAreValid, DifferencesTell, RelaysNeverGoBack};

/// A row that a listing shows with all properties reads back.
#[tactic(auto, using(crate::proofs::RowFacts::rows_read_back))]
pub fn a_row_reads_back()
    ensures { RowsReadBack }
{}

/// A library that a listing shows with all properties reads back.
#[tactic(auto, using(crate::proofs::LibraryFacts::libraries_read_back))]
pub fn a_library_reads_back()
    ensures { LibrariesReadBack }
{}

/// The test for unchanged rows is true exactly of equal rows.
#[tactic(auto, using(crate::proofs::RowFacts::rows_are_told_apart))]
pub fn rows_are_told_apart()
    ensures { RowsAreToldApart }
{}

/// The difference to a later library leads to that library.
#[tactic(auto, using(crate::proofs::DifferenceFacts::differences_apply))]
pub fn a_difference_applies()
    ensures { DifferencesApply }
{}

/// The edits of a difference are valid.
#[tactic(auto, using(crate::proofs::DifferenceFacts::differences_are_valid))]
pub fn a_difference_is_valid()
    ensures { DifferencesAreValid }
{}

/// The difference of two libraries is empty exactly if they are equal.
#[tactic(auto, using(crate::proofs::DifferenceFacts::differences_tell))]
pub fn a_difference_tells()
    ensures { DifferencesTell }
{}

/// If the batches of a share follow some libraries, its library is always one of these or empty, and never goes back.
#[tactic(auto, using(crate::proofs::StepFacts::relays_never_go_back))]
pub fn a_relay_never_goes_back()
    ensures { RelaysNeverGoBack }
{}

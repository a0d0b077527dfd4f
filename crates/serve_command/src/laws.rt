//! Laws of all runs. Each function has an empty body; its contract is a theorem.

ghost use Rattle.serve_command.specs.Laws.{AcknowledgedBatchesStay, FileFaultsAreCounted, RunsAreDecided, SuccessLeavesTheFile};

/// If nothing outside fails, arguments and input decide how a run ends, except for out of memory and for workers at
/// their limit.
pub fn runs_are_decided()
    ensures { RunsAreDecided }
{}

/// After status 0 the file has the batches of the history, and no error of files was counted.
pub fn success_leaves_the_file()
    ensures { SuccessLeavesTheFile }
{}

/// The status of a file that failed comes only if an error of files was counted.
pub fn file_faults_are_counted()
    ensures { FileFaultsAreCounted }
{}

/// However a run ends, its file has the batches that it had before, then the input's, and then those that replies
/// acknowledged, in order; and perhaps one more, if an error of files was counted. If no share was served, it has the
/// batches that it had before, perhaps with the input's.
pub fn acknowledged_batches_stay()
    ensures { AcknowledgedBatchesStay }
{}

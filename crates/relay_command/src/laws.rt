//! Laws of all runs. Each function has an empty body; its contract is a theorem.

ghost use Rattle.relay_command.specs.Laws.{RunsAreNotStopped, RunsShowWhatTheyRead, SuccessesMakeAllRounds};

/// The batches of a relay's share are the steps between the libraries that the relay read. What the players can see at
/// any length of the history is one of these libraries, or the empty one. They never see an earlier one after a later
/// one.
pub fn runs_show_what_they_read()
    ensures { RunsShowWhatTheyRead }
{}

/// The relay of a run never ends `Stopped`, because players cannot stop its share.
pub fn runs_are_not_stopped()
    ensures { RunsAreNotStopped }
{}

/// A run with status 0 made all rounds.
pub fn successes_make_all_rounds()
    ensures { SuccessesMakeAllRounds }
{}

//! Laws of all mirrors of a share, of all runs of `serve`, and of runs that met on a connection. The contract of each
//! function is a theorem.

ghost use Rattle.chain_meetings.specs.Restarts.{RestartsGoOn, RestartsKeepMirrors, RestartsKeepRevisions};
ghost use Rattle.mirror_core.specs.Laws.{MirrorsFollowAnswers, FullBodiesSuffice};
ghost use Rattle.serve_command.specs.Laws.{RunsAreDecided, SuccessLeavesTheFile};
ghost use Rattle.share_meetings.specs.RelayLaws.{RunsSucceed};
ghost use Rattle.edit_meetings.specs.EditMeetings.{KeptEditsStay};
ghost use Rattle.command_runs.specs.Chains.{RunsShowInOrder, RunsShowTheFirst};
ghost use Rattle.command_runs.specs.Files.{RunsGoOn, RunsKeepTheFile};
ghost use Rattle.command_runs.specs.Laws.{RunsKeepEdits, RunsOfEditGoOn, RunsOfFollowGoOn, RunsShowTheRelay, RunsShowTheShare, RunsTellOfEdits};

use mirror_core::laws;

/// A mirror that held all rows of a prefix of a history holds all rows of the whole after the body of its answer,
/// whether that is a delta or has all rows.
pub fn a_mirror_follows_answers()
    ensures { MirrorsFollowAnswers }
{
    laws::a_mirror_follows_answers();
}

/// After a body with all rows a mirror holds them, whatever it held.
pub fn a_full_body_suffices()
    ensures { FullBodiesSuffice }
{
    laws::a_full_body_suffices();
}

/// A run of `serve` and a run of `follow` met on a connection, which may have broken, however each ended. There are
/// revisions of the one history that the share left, each above the one before, none from before the login on that
/// connection, at most ROUNDS. What `follow` wrote is the text of these revisions, or a prefix of it if its output failed,
/// or their lines and then that of an error, perhaps cut. With status 0 it is all of it, for exactly ROUNDS revisions.
pub fn runs_show_the_share()
    ensures { RunsShowTheShare }
{}

/// The same of a run of `relay` and a run of `follow`.
pub fn runs_show_the_relay()
    ensures { RunsShowTheRelay }
{}

/// For any lengths of the history of the last relay of a chain at which its players look, in order, the first share had
/// lengths of its history, in order, with the same libraries. The chain may have no relay, one, or more; however each of
/// these runs ended, and whether or not a connection between two of them broke.
pub fn chains_show_in_order()
    ensures { RunsShowInOrder }
{}

/// The rows that `follow` writes of the last relay of a chain, at its end, are those of the first share at one of its
/// revisions. The first revision of a share, 2, has none.
pub fn followers_show_the_first()
    ensures { RunsShowTheFirst }
{}

/// A run of `serve` that begins with the file's contents that an earlier run left begins its history with the batches of
/// that run. If the earlier run lost an edit, these are the batches before that edit, and perhaps one more.
pub fn restarts_go_on()
    ensures { RestartsGoOn }
{
    chain_meetings::laws::restarts_go_on();
}

/// Each revision of the earlier run, except for that of a lost edit, has the same batches in the later one.
pub fn restarts_keep_revisions()
    ensures { RestartsKeepRevisions }
{
    chain_meetings::laws::restarts_keep_revisions();
}

/// A mirror that held the rows of such a revision held what the share of the later run had before each request of a
/// connection. So it gets the changes since then, or all rows.
pub fn restarts_keep_mirrors()
    ensures { RestartsKeepMirrors }
{
    chain_meetings::laws::restarts_keep_mirrors();
}

/// A run of `serve` and a run of `edit` met on a connection, which may have broken. If `edit` succeeded, then the history
/// that the share left has the batch of its input, at the revision that it wrote; or the input has no edits.
pub fn runs_keep_edits()
    ensures { RunsKeepEdits }
{}

/// However `edit` ended, also for a stop: what it wrote of the share is true, and the answers on the connection added all
/// of the input's edits, in one batch, or none.
pub fn runs_tell_of_edits()
    ensures { RunsTellOfEdits }
{}

/// A batch that a share kept is among those of its revision and of each later one. So what `follow` shows at that revision
/// or a later one is computed from batches that include what `edit` acknowledged.
pub fn kept_edits_stay()
    ensures { KeptEditsStay }
{
    edit_meetings::laws::kept_edits_stay();
}

/// If nothing outside fails, a run of `serve` whose input (and file) a share may begin with ends with 0, except for out
/// of memory and for a worker at its limit.
pub fn runs_of_serve_are_decided()
    ensures { RunsAreDecided }
{
    serve_command::laws::runs_are_decided();
}

/// If a share responds to each request of a run of `follow`, for all its rounds, and nothing outside fails, then the run
/// ends with 0, except for out of memory.
pub fn runs_of_follow_go_on()
    ensures { RunsOfFollowGoOn }
{}

/// If a share responds to a run of `edit` with a success, and nothing outside fails, then the run ends with 0, except for
/// out of memory.
pub fn runs_of_edit_go_on()
    ensures { RunsOfEditGoOn }
{}

/// If a share grants each request of a relay, and nothing outside fails, then a run of `relay` ends with 0, except for out
/// of memory, for a worker at its limit and for a library that the relay's share has no capacity for.
pub fn runs_of_relay_succeed()
    ensures { RunsSucceed }
{
    share_meetings::laws::runs_succeed();
}

/// After status 0 of `serve` with a file, the file has the batches of the history, and no error of files was counted.
pub fn success_leaves_the_file()
    ensures { SuccessLeavesTheFile }
{
    serve_command::laws::success_leaves_the_file();
}

/// However a run of `serve` with a file ends, the file has the batches that it had before and, if a share was served, then
/// the input's and those that replies acknowledged, in order; and perhaps one more, if an error of files was counted.
pub fn acknowledged_batches_stay()
    ensures { RunsKeepTheFile }
{}

/// Of any number of runs of `serve` with one file, one after another, however each ended: all batches that replies of one
/// run acknowledged are in the history of each later run, in order, each at the same revision.
pub fn acknowledged_batches_go_on()
    ensures { RunsGoOn }
{}

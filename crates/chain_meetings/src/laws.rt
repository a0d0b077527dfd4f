//! Laws of all chains of relays and of all restarts. Each function has an empty body; its contract is a theorem.

ghost use Rattle.chain_meetings.specs.Chains.{ChainsShowInOrder, ChainsShowRows, FollowersShowTheFirst, RelaysStepThrough};
ghost use Rattle.chain_meetings.specs.Restarts.{RestartsGoOn, RestartsKeepMirrors, RestartsKeepRevisions};
ghost use Rattle.chain_meetings.specs.Sequels.{AcknowledgedBatchesGoOn};

/// However a relay ended, the batches that it left are the steps between libraries that its upstream had, in order.
pub fn relays_step_through()
    ensures { RelaysStepThrough }
{}

/// What the players of the last relay of a chain see are libraries that the first share had, in order.
pub fn chains_show_in_order()
    ensures { ChainsShowInOrder }
{}

/// The rows that mirrors of items hold of the last relay of a chain, in order, are rows that such a mirror of the first
/// share has at some of its revisions, in order.
pub fn chains_show_rows()
    ensures { ChainsShowRows }
{}

/// The rows that `follow` writes of the last relay, at its end, are those of the first share at one of its revisions. The
/// first revision of a share, 2, has none.
pub fn followers_show_the_first()
    ensures { FollowersShowTheFirst }
{}

/// A run of `serve` that begins with the file of an earlier run goes on with the batches that this run left.
pub fn restarts_go_on()
    ensures { RestartsGoOn }
{}

/// Each revision of the first run, except for that of a lost edit, has the same batches in the second.
pub fn restarts_keep_revisions()
    ensures { RestartsKeepRevisions }
{}

/// A mirror that held the rows of a revision of the first run, except for that of a lost edit, held what the share of the
/// second had before each request of a connection. So it gets the changes since then, or all rows.
pub fn restarts_keep_mirrors()
    ensures { RestartsKeepMirrors }
{}

/// Of any number of runs of `serve` with one file, one after another, however each ended: all batches that replies of one
/// run acknowledged are in the history of each later run, in order, each at the same revision.
pub fn acknowledged_batches_go_on()
    ensures { AcknowledgedBatchesGoOn }
{}

//! Answers a request within a turn, and keeps its edit.

ghost use Rattle.std.specs.Prelude.{◌≡◌, ◌<◌, ◌++◌, ◌∷◌, [], false};
ghost use Rattle.item_model.specs.declared.changes.Entry.TheVariants as entry;
ghost use Rattle.share_asks.specs.Valid.{IsValidWant};
ghost use Rattle.share_history.specs.Sessions.{is_stopped};
ghost use Rattle.share_lock.specs.Known.{after_turn};
ghost use Rattle.share_core.specs.Laws.{Grows};
ghost use Rattle.share_server.specs.Passes.{Pass as Known};
ghost use Rattle.share_server.specs.Answering.{IsTurnOutcome, Finds, HasAdded, has_added, turn_outcome, loses_in};
ghost use Rattle.share_server.specs.Kept.{IsReadyFor, KeepsEdits, edits_wanted};

use crate::report::Served;
use crate::turns::outcome::{Answered, TurnOutcome};
use edit_keeping::Keeps;
use share_asks::{Ask, Role, Want};
use share_core::{Answer, Share};
use song_query::Steps;
use std::alloc::AllocError;
use std::sync::ledger::{Blank, Ledger};

/// Answers the request for handle `by`. An edit that was added is kept before anyone sees it; if it is lost, the
/// share is stopped after it. Evaluations of queries are not counted.
pub(crate) fn ask_share<L: Ledger, F: Keeps>(
    blank: Blank,
    share: &mut Share,
    by: u32,
    keeper: &mut F,
    ask: &Ask,
    ready: Option<F::Ready>,
) -> TurnOutcome
    requires name { blank.name ≡ L.name }
    requires parts { blank.parts ≡ L.parts }
    requires any { 0 < blank.parts }
    requires valid { IsValidWant ask.now.want }
    requires made { IsReadyFor F.is_for (edits_wanted ask.now.want) ready }
    requires going { F.is_lost keeper.old ≡ false }
    ensures grows { Grows share.old by share.new }
    ensures looked { (k : Known) → k.number ≡ by → Finds k share.old
        → IsTurnOutcome k (after_turn k share.new.history) ask.now result }
    ensures keeping { (k : Known) → k.number ≡ by → Finds k share.old
        → KeepsEdits F.Keeps keeper.old keeper.new k (after_turn k share.new.history)
        (loses_in result) }
{
    let mut steps = Steps::<L>::open(blank);
    let outcome = answer_ask(share, by, ask, &mut steps);
    if !outcome.has_added() {
        return outcome;
    }
    let Some(ready) = ready else {
        return outcome;
    };
    if keeper.keep(ready).is_ok() {
        return outcome;
    }
    // A call drops what was answered, so that the end of this function does not.
    drop(outcome);
    stop(share, by, &mut steps);
    TurnOutcome::Lost { point: share.len() }
}

// Answers the request.
fn answer_ask<L: Ledger>(share: &mut Share, by: u32, ask: &Ask, steps: &mut Steps<L>) -> TurnOutcome
    requires valid { IsValidWant ask.now.want }
    ensures grows { Grows share.old by share.new }
    ensures looked { (k : Known) → k.number ≡ by → Finds k share.old
        → IsTurnOutcome k (after_turn k share.new.history) ask.now result }
    ensures added { HasAdded (has_added result) share.old.history by ask.now.want
        share.new.history }
    ensures goes_on { loses_in result ≡ false }
{
    let answer = share.answer(by, ask, steps);
    let stopped = share.is_stopped();
    let revision = share.revision();
    let end = share.len();
    turn_outcome(answer, stopped, revision, end)
}

// Stops the share, which always has capacity for it.
fn stop<L: Ledger>(share: &mut Share, by: u32, steps: &mut Steps<L>)
    requires going { is_stopped share.old.history ≡ false }
    ensures settings { share.new.settings ≡ share.old.settings }
    ensures stopped { share.new.history ≡ share.old.history ++ entry.Stop by ∷ [] }
{
    let ask = Ask {
        role: Role::Edit,
        close: false,
        want: Want::Stop,
    };
    // Calls drop the answer and the request, so that the end of this function drops nothing.
    drop(share.answer(by, &ask, steps));
    drop(ask);
}

/// Returns the outcome of a turn: the reply, or a 500 at history length `end`. `revision` is the share's.
pub(crate) fn turn_outcome(
    answer: Result<Answer, AllocError>,
    stopped: bool,
    revision: u32,
    end: u64,
) -> TurnOutcome
    ensures { result ≡ turn_outcome answer stopped revision end }
{
    match answer {
        Ok(Answer::Reply(reply)) => TurnOutcome::Answered(Answered {
            served: Served {
                session: reply.session,
                seen: reply.seen,
                point: reply.point,
                status: reply.content.status,
                added: reply.added,
            },
            said: Some(reply.content),
            stopped,
            revision,
        }),
        Ok(Answer::Wait { point, .. }) => TurnOutcome::Held { point },
        Err(_) => TurnOutcome::Answered(Answered {
            served: Served {
                session: 0,
                seen: 0,
                point: end,
                status: 500,
                added: false,
            },
            said: None,
            stopped,
            revision,
        }),
    }
}

//! One turn of a request.

ghost use Rattle.std.specs.Prelude.{◌≡◌, false, IfOk, OnErr, []};
ghost use Rattle.http_front.specs.Readable.{IsReadableWant};
ghost use Rattle.share_asks.specs.declared.ask.Ask.{Ask as AskSeen};
ghost use Rattle.share_asks.specs.Valid.{IsValidWant};
ghost use Rattle.share_lock.specs.Passes.{lock_id, known, IsReady};
ghost use Rattle.share_core.specs.Wants.{is_free};
ghost use Rattle.share_server.specs.Passes.{Serves};
ghost use Rattle.share_server.specs.Answering.{IsTurnOutcome, loses_in};
ghost use Rattle.share_server.specs.Kept.{IsReadyFor, KeepsEdits, edits_wanted};

use crate::turns::keeping::{ask_share, turn_outcome};
use crate::turns::outcome::TurnOutcome;
use edit_keeping::Keeps;
use share_asks::{Ask, Want};
use share_core::Share;
use share_lock::{Pass, ShareLock};
use std::alloc::{AllocError, Global};
use std::marker::Brand;
use std::sync::Wait;
use std::sync::ledger::Blank;

/// Takes a turn for a request. The keeper makes an edit ready before it. If that fails to allocate, the turn only
/// reads the history.
pub(crate) fn turn<F: Keeps, R: Wait>(
    rt: &R,
    alloc: Global,
    lock: &ShareLock<Share>,
    pass: &mut Pass<Share>,
    keeper: &mut F,
    ask: &Ask,
) -> TurnOutcome
    requires ready { IsReady (lock_id lock.now) pass.old }
    requires valid { IsValidWant ask.now.want }
    requires readable { IsReadableWant ask.now.want }
    requires going { F.is_lost keeper.old ≡ false }
    ensures ready { IsReady (lock_id lock.now) pass.new }
    ensures looked { IsTurnOutcome (known pass.old) (known pass.new) ask.now result }
    ensures keeping { KeepsEdits F.Keeps keeper.old keeper.new (known pass.old) (known pass.new)
        (loses_in result) }
{
    match ready_for(alloc, keeper, &ask.want) {
        Ok(ready) => answer_in_turn(rt, lock, pass, keeper, ask, ready),
        Err(AllocError) => fail_in_turn(rt, lock, pass),
    }
}

// Returns what the keeper makes ready for the edits of an operation, if it has any.
fn ready_for<F: Keeps>(
    alloc: Global,
    keeper: &F,
    want: &Want,
) -> Result<Option<F::Ready>, AllocError>
    requires readable { IsReadableWant want.now }
    ensures ready { IfOk result (IsReadyFor F.is_for (edits_wanted want.now)) }
    ensures edits { OnErr result (is_free want.now ≡ false) }
{
    let Want::Edit { body: Ok(batch) } = want else {
        return Ok(None);
    };
    if batch.edits.as_slice().is_empty() {
        return Ok(None);
    }
    let ready = keeper.ready(alloc, batch)?;
    Ok(Some(ready))
}

// Takes a turn, and ends it before anything is written.
fn answer_in_turn<F: Keeps, R: Wait>(
    rt: &R,
    lock: &ShareLock<Share>,
    pass: &mut Pass<Share>,
    keeper: &mut F,
    ask: &Ask,
    ready: Option<F::Ready>,
) -> TurnOutcome
    requires ready { IsReady (lock_id lock.now) pass.old }
    requires valid { IsValidWant ask.now.want }
    requires made { IsReadyFor F.is_for (edits_wanted ask.now.want) ready }
    requires going { F.is_lost keeper.old ≡ false }
    ensures ready { IsReady (lock_id lock.now) pass.new }
    ensures looked { IsTurnOutcome (known pass.old) (known pass.new) ask.now result }
    ensures keeping { KeepsEdits F.Keeps keeper.old keeper.new (known pass.old) (known pass.new)
        (loses_in result) }
{
    let by = pass.number();
    let mut turn = lock.take(rt, pass);
    let outcome = ask_share::<Brand, F>(Blank::new(1), turn.state(), by, keeper, ask, ready);
    lock.give(turn);
    outcome
}

// A turn that answers a request with 500, because an allocation failed before.
fn fail_in_turn<R: Wait>(rt: &R, lock: &ShareLock<Share>, pass: &mut Pass<Share>) -> TurnOutcome
    requires ready { IsReady (lock_id lock.now) pass.old }
    ensures ready { IsReady (lock_id lock.now) pass.new }
    ensures looked { (ask : AskSeen) → is_free ask.want ≡ false
        → IsTurnOutcome (known pass.old) (known pass.new) ask result }
    ensures quiet { Serves (known pass.old) (known pass.new) [] [] }
    ensures goes_on { loses_in result ≡ false }
{
    let mut turn = lock.take(rt, pass);
    let share = turn.state();
    let outcome = turn_outcome(
        Err(AllocError),
        share.is_stopped(),
        share.revision(),
        share.len(),
    );
    lock.give(turn);
    outcome
}

//! Turns of the relay's handle.

ghost use Rattle.std.specs.Prelude.{◌≡◌, ◌<◌, true};
ghost use Rattle.item_model.specs.Valid.{AreValid};
ghost use Rattle.share_asks.specs.Valid.{IsValidWant};
ghost use Rattle.share_core.specs.Laws.{Grows};
ghost use Rattle.share_lock.specs.Known.{after_turn};
ghost use Rattle.share_lock.specs.Passes.{lock_id, known, IsReady};
ghost use Rattle.share_server.specs.Answering.{Finds};
ghost use Rattle.share_server.specs.Passes.{Pass as Seen};
ghost use Rattle.relay_share.specs.Asks.{edit_ask, stop_ask, is_change, told_of};
ghost use Rattle.relay_share.specs.Turns.{IsTold};

use item_model::Batch;
use share_asks::{Ask, Role, Want};
use share_core::{Answer, Share};
use share_lock::{Bell, Pass, ShareLock};
use share_server::Served;
use song_query::Steps;
use std::alloc::AllocError;
use std::marker::Brand;
use std::sync::Wait;
use std::sync::ledger::{Blank, Ledger};

/// The relay's own share: its lock, and the bell that is rung for each added entry.
#[derive(Drop)]
pub(crate) struct OwnShare<'a, R> {
    pub(crate) rt: &'a R,
    pub(crate) lock: &'a ShareLock<Share>,
    pub(crate) bell: &'a Bell,
}

/// The report of a turn: the answer, and the share's revision at its history length.
#[derive(Clone, Copy)]
pub(crate) struct Told {
    pub(crate) served: Served,
    pub(crate) revision: u32,
}

/// Requests an edit of the share, in a turn of the handle.
pub(crate) fn edit<R: Wait>(own: &OwnShare<'_, R>, pass: &mut Pass<Share>, batch: Batch) -> Told
    requires ready { IsReady (lock_id own.now.lock.now) pass.old }
    requires valid { AreValid batch }
    ensures ready { IsReady (lock_id own.now.lock.now) pass.new }
    ensures told { IsTold (known pass.old) (known pass.new) (edit_ask batch) result }
{
    let ask = Ask {
        role: Role::Edit,
        close: false,
        want: Want::Edit { body: Ok(batch) },
    };
    turn(own, pass, &ask)
}

/// Stops the share, in a turn of the handle. A share that was stopped before is unchanged.
pub(crate) fn stop<R: Wait>(own: &OwnShare<'_, R>, pass: &mut Pass<Share>) -> Told
    requires ready { IsReady (lock_id own.now.lock.now) pass.old }
    ensures ready { IsReady (lock_id own.now.lock.now) pass.new }
    ensures told { IsTold (known pass.old) (known pass.new) stop_ask result }
{
    let ask = Ask {
        role: Role::Edit,
        close: false,
        want: Want::Stop,
    };
    turn(own, pass, &ask)
}

// Takes a turn for a request, ends it, and rings the bell if an entry was added.
fn turn<R: Wait>(own: &OwnShare<'_, R>, pass: &mut Pass<Share>, ask: &Ask) -> Told
    requires ready { IsReady (lock_id own.now.lock.now) pass.old }
    requires valid { IsValidWant ask.now.want }
    requires change { is_change ask.now.want ≡ true }
    ensures ready { IsReady (lock_id own.now.lock.now) pass.new }
    ensures told { IsTold (known pass.old) (known pass.new) ask.now result }
{
    let by = pass.number();
    let mut turn = own.lock.take(own.rt, pass);
    let told = ask_share::<Brand>(Blank::new(1), turn.state(), by, ask);
    own.lock.give(turn);
    ring_added(own, &told);
    told
}

// Rings the bell if a turn added an entry.
fn ring_added<R: Wait>(own: &OwnShare<'_, R>, told: &Told) {
    if told.served.added {
        own.bell.ring(own.rt, told.served.point);
    }
}

// Answers the request for handle `by`. Evaluations of rules are not counted.
fn ask_share<L: Ledger>(blank: Blank, share: &mut Share, by: u32, ask: &Ask) -> Told
    requires name { blank.name ≡ L.name }
    requires parts { blank.parts ≡ L.parts }
    requires any { 0 < blank.parts }
    requires valid { IsValidWant ask.now.want }
    requires change { is_change ask.now.want ≡ true }
    ensures grows { Grows share.old by share.new }
    ensures told { (k : Seen) → k.number ≡ by → Finds k share.old
        → IsTold k (after_turn k share.new.history) ask.now result }
{
    let mut steps = Steps::<L>::open(blank);
    let answer = share.answer(by, ask, &mut steps);
    let revision = share.revision();
    let end = share.len();
    told_of(answer, revision, end)
}

// Returns the report of an answer, or of an answer that failed to allocate at history length `end`. Edits and stops
// are never pending.
fn told_of(answer: Result<Answer, AllocError>, revision: u32, end: u64) -> Told
    ensures { result ≡ told_of answer revision end }
{
    let served = match answer {
        Ok(Answer::Reply(reply)) => Served {
            session: reply.session,
            seen: reply.seen,
            point: reply.point,
            status: reply.content.status,
            added: reply.added,
        },
        Ok(Answer::Wait { .. }) | Err(_) => Served {
            session: 0,
            seen: 0,
            point: end,
            status: 500,
            added: false,
        },
    };
    Told { served, revision }
}

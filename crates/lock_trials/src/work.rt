//! Turns at one list of numbers, by one handle.
ghost use Rattle.std.specs.Prelude.{◌≡◌, ◌++◌, [], ◌∷◌, length, OnOk, OnErr};
ghost use Rattle.share_lock.specs.Passes.{lock_id, known, IsReady};
ghost use Rattle.lock_trials.specs.Work.{added_in, first_numbers, IsSame};

use crate::numbers::Numbers;
use share_lock::{Pass, ShareLock};
use std::alloc::AllocError;
use std::sync::Wait;

/// Appends a number in a turn. The handle's numbers are then those before and this one, and the turn is recorded.
pub fn add<R: Wait>(
    rt: &R,
    lock: &ShareLock<Numbers>,
    pass: &mut Pass<Numbers>,
    value: u64,
) -> Result<(), AllocError>
    requires ready { IsReady (lock_id lock.now) pass.old }
    ensures ready { IsReady (lock_id lock.now) pass.new }
    ensures same { IsSame (known pass.old) (known pass.new) }
    ensures added { OnOk result (added_in (known pass.new)
        ≡ added_in (known pass.old) ++ record { by = (known pass.old).number; value = value }
        ∷ []) }
    ensures none { OnErr result (added_in (known pass.new) ≡ added_in (known pass.old)) }
    ensures looked { (known pass.new).looks
        ≡ (known pass.old).looks ++ length (known pass.new).seen ∷ [] }
{
    let by = pass.number();
    let mut turn = lock.take(rt, pass);
    let added = turn.state().add(by, value);
    lock.give(turn);
    added
}

/// A handle, the turns that it is to take, and how many of them added their number.
#[derive(Drop)]
pub struct Worker {
    pub pass: Pass<Numbers>,
    pub turns: u64,
    pub added: u64,
}

#[tactic(auto, using(crate::proofs::Lists::one_more))]
/// Takes the worker's turns. Each adds its own number, counted from 0. Stops if an allocation fails.
pub fn work<R: Wait>(rt: &R, lock: &ShareLock<Numbers>, worker: &mut Worker)
    requires ready { IsReady (lock_id lock.now) worker.old.pass }
    ensures ready { IsReady (lock_id lock.now) worker.new.pass }
    ensures same { IsSame (known worker.old.pass) (known worker.new.pass) }
    ensures added { added_in (known worker.new.pass)
        ≡ added_in (known worker.old.pass) ++ first_numbers
        (known worker.old.pass).number worker.new.added }
{
    worker.added = 0;
    for value in 0..worker.turns {
        if add(rt, lock, &mut worker.pass, value).is_err() {
            return;
        }
        worker.added = value + 1;
    }
}

//! Handles that are joined again, and the list that they leave.
ghost use Rattle.std.specs.Prelude.{◌≡◌, ◌∷◌, All, AllPairs};
ghost use Rattle.share_lock.specs.Passes.{lock_id, known, IsReady};
ghost use Rattle.lock_trials.specs.Gathered.{AreCovered, AreApart};
ghost use Rattle.lock_trials.specs.Made.{numbers_in};
ghost use Rattle.lock_trials.specs.Work.{IsIn};

use crate::numbers::Numbers;
use share_lock::{Pass, ShareLock};
use std::sync::Wait;

/// Returns the first handle, with all others joined to it.
fn join_others(
    lock: &ShareLock<Numbers>,
    first: Pass<Numbers>,
    others: Vec<Pass<Numbers>>,
) -> Pass<Numbers>
    requires first { IsReady (lock_id lock.now) first }
    requires others { All (λ p. IsReady (lock_id lock.now) p) others.items }
    ensures ready { IsReady (lock_id lock.now) result }
    ensures covered { AreCovered result (first ∷ others.items) }
    ensures apart { AreApart (first ∷ others.items) }
{
    let mut pass = first;
    for other in others {
        lock.join(&mut pass, other);
    }
    pass
}

/// Joins all handles, and takes the list out for good in a last turn. The list begins with what each of them had
/// seen, has no later number of theirs, and no two of them have a number in common.
pub fn join_all<R: Wait>(
    rt: &R,
    lock: &ShareLock<Numbers>,
    first: Pass<Numbers>,
    others: Vec<Pass<Numbers>>,
) -> Numbers
    requires first { IsReady (lock_id lock.now) first }
    requires others { All (λ p. IsReady (lock_id lock.now) p) others.items }
    ensures seen { All (λ p. IsIn (numbers_in result) (known p)) (first ∷ others.items) }
    ensures apart { AreApart (first ∷ others.items) }
{
    let mut pass = join_others(lock, first, others);
    let turn = lock.take(rt, &mut pass);
    lock.end(turn)
}

//! Takes turns until a request is answered.

ghost use Rattle.std.specs.Prelude.{◌≡◌, false};
ghost use Rattle.http_front.specs.Readable.{IsReadableWant};
ghost use Rattle.share_asks.specs.Valid.{IsValidWant};
ghost use Rattle.share_lock.specs.Passes.{lock_id, known, IsReady};
ghost use Rattle.share_server.specs.Answering.{IsOutcome, CountsOutcome, loses};
ghost use Rattle.share_server.specs.Kept.{KeepsEdits};

use crate::turns::looks::turn;
use crate::turns::outcome::{Answered, TurnOutcome, Unanswered};
use edit_keeping::Keeps;
use outside_net::Link;
use share_asks::Ask;
use share_core::Share;
use share_lock::{Bell, Pass, ShareLock};
use std::alloc::Global;
use std::sync::Wait;
use std::time::{Clock, Duration, Instant};

/// The longest wait of a pending update, in seconds, before its connection is probed.
pub const PROBE_SECONDS: u64 = 5;

/// Answers a request. Takes a turn for the answer only, and writes nothing to the connection. A pending update waits
/// at the bell, outside any turn, for at most `PROBE_SECONDS`. Then its connection is probed, and it takes another
/// turn. An answer that adds an entry rings the bell. The keeper gets an edit in the turn that adds it, and makes it
/// ready before. If an allocation for either fails, the share is unchanged, and the status is 500. Nothing else
/// allocates.
///
/// # Errors
///
/// Returns `Gone` if the probe failed while the update was pending; nothing was served. Returns `Lost` if the keeper
/// lost the edit; it was added, and the share was stopped in the same turn.
pub fn answer_request<K: Link, F: Keeps, R: Wait + Clock>(
    rt: &R,
    alloc: Global,
    lock: &ShareLock<Share>,
    bell: &Bell,
    pass: &mut Pass<Share>,
    link: &mut K,
    keeper: &mut F,
    ask: &Ask,
) -> Result<Answered, Unanswered>
    requires ready { IsReady (lock_id lock.now) pass.old }
    requires valid { IsValidWant ask.now.want }
    requires readable { IsReadableWant ask.now.want }
    requires going { F.is_lost keeper.old ≡ false }
    ensures ready { IsReady (lock_id lock.now) pass.new }
    ensures outcome { IsOutcome (known pass.old) (known pass.new) ask.now result }
    ensures keeping { KeepsEdits F.Keeps keeper.old keeper.new (known pass.old) (known pass.new)
        (loses result) }
    ensures taken { K.taken link.new ≡ K.taken link.old }
    ensures beside { K.beside_taken link.new ≡ K.beside_taken link.old }
    ensures count { CountsOutcome (K.faults link.old) (K.faults link.new) result }
{
    for _ in rt.forever() {
        match turn(rt, alloc, lock, pass, keeper, ask) {
            TurnOutcome::Answered(answered) => {
                if answered.served.added {
                    bell.ring(rt, answered.served.point);
                }
                return Ok(answered);
            }
            TurnOutcome::Held { point } => {
                wait_held(rt, bell, point);
                if link.probe().is_err() {
                    return Err(Unanswered::Gone);
                }
            }
            TurnOutcome::Lost { point } => {
                bell.ring(rt, point);
                return Err(Unanswered::Lost);
            }
        }
    }
    unreachable!()
}

// Waits at the bell until the next probe. If the clock can't be read, no time ends the wait: otherwise a pending
// update would take turn after turn.
fn wait_held<R: Wait + Clock>(rt: &R, bell: &Bell, point: u64) {
    match Instant::now(rt) {
        Ok(_) => bell.wait_for(rt, point, Duration::from_secs(PROBE_SECONDS)),
        Err(_) => bell.wait(rt, point),
    }
}

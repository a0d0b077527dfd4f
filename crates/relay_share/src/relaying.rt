//! A relay from its first request to its stop.

ghost use Rattle.std.specs.Prelude.{◌≡◌, ◌≤◌, [], length};
ghost use Rattle.mirror_client.specs.Points.{nothing_read, place};
ghost use Rattle.share_lock.specs.Passes.{lock_id, known, IsReady};
ghost use Rattle.relay_share.specs.Ends.{CountsRelay, EndsRelay, HasRelayed};

use crate::report::{RelayEnd, RelayReport, Relayed, end_of};
use crate::rounds::{next_round, relay_round};
use crate::turns::{OwnShare, stop};
use mirror_client::Follower;
use outside_net::Link;
use relayed_rows::Relay;
use share_core::Share;
use share_lock::{Bell, Pass, ShareLock};
use std::alloc::Global;
use std::sync::Wait;

/// Follows the items of the share at the other end of `link` for 1 to 16,384 rounds, and makes each listing an edit
/// of the share under `lock`. Then it stops the share under `lock`, however it ended.
///
/// Requests each listing with all properties and with the revision that it holds. The edit drops the items that are
/// gone and puts those that are new or changed. If nothing changed, it has no records and adds nothing. Between two
/// rounds the relay waits for another revision. Each turn that added an entry rings the bell.
pub fn relay_link<K: Link, R: Wait>(
    rt: &R,
    alloc: Global,
    lock: &ShareLock<Share>,
    bell: &Bell,
    pass: &mut Pass<Share>,
    link: &mut K,
    host: &str,
    rounds: u32,
) -> RelayReport
    requires ready { IsReady (lock_id lock.now) pass.old }
    requires some { 1 ≤ rounds }
    requires few { rounds ≤ 16384 }
    ensures ready { IsReady (lock_id lock.now) pass.new }
    ensures relayed { HasRelayed host.now rounds
        (place (K.taken link.old) (K.left link.old) nothing_read) (K.taken link.new)
        (known pass.old) (known pass.new) result }
    ensures count { CountsRelay (K.faults link.old) (K.faults link.new) result.end }
{
    let own = OwnShare { rt, lock, bell };
    let mut done = Vec::new(alloc);
    let end = relay_rounds(alloc, &own, pass, link, host, rounds, &mut done);
    stop(&own, pass);
    RelayReport { rounds: done, end }
}

fn relay_rounds<K: Link, R: Wait>(
    alloc: Global,
    own: &OwnShare<'_, R>,
    pass: &mut Pass<Share>,
    link: &mut K,
    host: &str,
    rounds: u32,
    done: &mut Vec<Relayed>,
) -> RelayEnd
    requires ready { IsReady (lock_id own.now.lock.now) pass.old }
    requires some { 1 ≤ rounds }
    requires few { rounds ≤ 16384 }
    requires nothing { done.old.items ≡ [] }
    ensures ready { IsReady (lock_id own.now.lock.now) pass.new }
    ensures ends { EndsRelay host.now rounds
        (place (K.taken link.old) (K.left link.old) nothing_read) (K.taken link.new)
        (known pass.old) (known pass.new) done.new.items result }
    ensures count { CountsRelay (K.faults link.old) (K.faults link.new) result }
{
    let mut follower = match Follower::open(alloc, link, host) {
        Ok(follower) => follower,
        Err(error) => return end_of(error),
    };
    let mut relay = Relay::new(alloc);
    match relay_round(own, pass, &mut follower, link, &mut relay, done) {
        Ok(()) => {}
        Err(end) => return end,
    }
    for round in 1..rounds {
        match next_round(own, pass, &mut follower, link, &mut relay, done) {
            Ok(()) => {}
            Err(end) => return end,
        }
    }
    match follower.close(link) {
        Ok(()) => RelayEnd::Done,
        Err(error) => end_of(error),
    }
}

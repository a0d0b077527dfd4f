//! Follows a listing for a number of rounds.

ghost use Rattle.std.specs.Prelude.{◌≡◌, ◌≤◌, ◌<◌, ◌+◌, ℕ, List, [], ◌∷◌, ◌++◌, length, false, ◌==◌, IfErr, OnOk, IfOk};
ghost use Rattle.share_asks.specs.Valid.{MayAsk};
ghost use Rattle.share_history.specs.Listings.{Listing};
ghost use Rattle.mirror_core.specs.Mirrored.{Mirrored};
ghost use Rattle.mirror_client.specs.Points.{point_of};
ghost use Rattle.mirror_client.specs.Runs.{BreaksRun, CompletesRun, StopsRun, WalksRun, follow_run};
ghost use Rattle.mirror_client.specs.Stages.{Asking, Holding};
ghost use Rattle.mirror_client.specs.Steps.{all_applied, with_listings};
ghost use Rattle.mirror_client.specs.Stopping.{CountsErrors};

use crate::follower::Follower;
use crate::refusal::FollowError;
use mirror_core::{Applied, Mirror};
use outside_net::Link;
use std::alloc::Global;

/// Follows the mirror's listing for 1 to 16,384 rounds, and returns what each of them did.
///
/// Learns the share's table, logs in, requests the listing once in each round with the revision that the mirror
/// holds, waits for another revision between two rounds, and logs out. After an `Err` the mirror is as after the last
/// listing that it applied.
pub fn follow_link<K: Link>(
    alloc: Global,
    link: &mut K,
    host: &str,
    mirror: &mut Mirror,
    rounds: u32,
) -> Result<Vec<Applied>, FollowError>
    requires some { 1 ≤ rounds }
    requires few { rounds ≤ 16384 }
    requires asks { MayAsk mirror.old.query }
    ensures followed { IfOk result (λ applied. CompletesRun K.Link
        (follow_run host.now mirror.old rounds) link.old link.new applied.items mirror.new) }
    ensures stops { IfErr result (λ e. BreaksRun K.Link
        (follow_run host.now mirror.old rounds) link.old link.new e mirror.new) }
    ensures count { CountsErrors K.Link link.old link.new result }
{
    let mut applied = Vec::new(alloc);
    match follow_into(alloc, link, host, mirror, rounds, &mut applied) {
        Ok(()) => Ok(applied),
        Err(error) => Err(error),
    }
}

// Follows the mirror's listing from the login to the logout.
fn follow_into<K: Link>(
    alloc: Global,
    link: &mut K,
    host: &str,
    mirror: &mut Mirror,
    rounds: u32,
    applied: &mut Vec<Applied>,
) -> Result<(), FollowError>
    requires some { 1 ≤ rounds }
    requires few { rounds ≤ 16384 }
    requires asks { MayAsk mirror.old.query }
    requires none { applied.old.items ≡ [] }
    ensures followed { OnOk result (CompletesRun K.Link
        (follow_run host.now mirror.old rounds) link.old link.new applied.new.items mirror.new) }
    ensures stops { IfErr result (λ e. BreaksRun K.Link
        (follow_run host.now mirror.old rounds) link.old link.new e mirror.new) }
    ensures count { CountsErrors K.Link link.old link.new result }
{
    let mut follower = match Follower::open(alloc, link, host) {
        Ok(follower) => follower,
        Err(error) => return Err(error),
    };
    match follow_rounds(&mut follower, link, mirror, rounds, applied) {
        Ok(()) => follower.close(link),
        Err(error) => Err(error),
    }
}

// Fetches a listing in each round, and waits for another revision between two rounds.
fn follow_rounds<K: Link>(
    follower: &mut Follower,
    link: &mut K,
    mirror: &mut Mirror,
    rounds: u32,
    applied: &mut Vec<Applied>,
) -> Result<(), FollowError>
    requires some { 1 ≤ rounds }
    requires few { rounds ≤ 16384 }
    requires uncalled { follower.old.calls ≡ 0 }
    requires asks { MayAsk mirror.old.query }
    requires none { applied.old.items ≡ [] }
    ensures walks { OnOk result ((ls : List Listing) × (length ls ≡ rounds)
        × (mirror.new ≡ with_listings mirror.old ls)
        × (applied.new.items ≡ all_applied mirror.old.held ls)
        × WalksRun (follow_run follower.old.host mirror.old rounds)
        (Asking follower.old.known []) (point_of K.Link link.old follower.old.ahead)
        (Holding follower.new.known ls) (point_of K.Link link.new follower.new.ahead)) }
    ensures stops { IfErr result (λ e. StopsRun (follow_run follower.old.host mirror.old rounds)
        (Asking follower.old.known []) (point_of K.Link link.old follower.old.ahead)
        (K.taken link.new) e mirror.new) }
    ensures stays { follower.new.host ≡ follower.old.host }
    ensures count { CountsErrors K.Link link.old link.new result }
{
    match fetch_next(follower, link, mirror, applied) {
        Ok(()) => {}
        Err(error) => return Err(error),
    }
    for round in 1..rounds {
        match next_round(follower, link, mirror, applied) {
            Ok(()) => {}
            Err(error) => return Err(error),
        }
    }
    Ok(())
}

// Fetches one more listing. `m` is the mirror at the start.
fn fetch_next<K: Link>(
    follower: &mut Follower,
    link: &mut K,
    mirror: &mut Mirror,
    applied: &mut Vec<Applied>,
) -> Result<(), FollowError>
    requires few { follower.old.calls < 65536 }
    requires asks { MayAsk mirror.old.query }
    ensures walks { OnOk result ((m : Mirrored) (rounds : ℕ) (ls : List Listing)
        → mirror.old ≡ with_listings m ls → applied.old.items ≡ all_applied m.held ls
        → (l : Listing) × (mirror.new ≡ with_listings m (ls ++ l ∷ []))
        × (applied.new.items ≡ all_applied m.held (ls ++ l ∷ []))
        × WalksRun (follow_run follower.old.host m rounds)
        (Asking follower.old.known ls) (point_of K.Link link.old follower.old.ahead)
        (Holding follower.old.known (ls ++ l ∷ [])) (point_of K.Link link.new follower.new.ahead)) }
    ensures stops { IfErr result (λ e. (m : Mirrored) (rounds : ℕ) (ls : List Listing)
        → mirror.old ≡ with_listings m ls
        → StopsRun (follow_run follower.old.host m rounds)
        (Asking follower.old.known ls) (point_of K.Link link.old follower.old.ahead)
        (K.taken link.new) e mirror.new) }
    ensures stays { (follower.new.host ≡ follower.old.host)
        × (follower.new.known ≡ follower.old.known) }
    ensures calls { follower.new.calls ≡ follower.old.calls + 1 }
    ensures query { mirror.new.query ≡ mirror.old.query }
    ensures count { CountsErrors K.Link link.old link.new result }
{
    match follower.listing(link, mirror) {
        Ok(done) => match applied.push(done) {
            Ok(()) => Ok(()),
            Err(_) => Err(FollowError::Memory),
        },
        Err(error) => Err(error),
    }
}

// Waits for another revision, and fetches one more listing.
fn next_round<K: Link>(
    follower: &mut Follower,
    link: &mut K,
    mirror: &mut Mirror,
    applied: &mut Vec<Applied>,
) -> Result<(), FollowError>
    requires few { follower.old.calls < 65535 }
    requires asks { MayAsk mirror.old.query }
    ensures walks { OnOk result ((m : Mirrored) (rounds : ℕ) (ls : List Listing)
        → mirror.old ≡ with_listings m ls → applied.old.items ≡ all_applied m.held ls
        → (length ls == rounds) ≡ false
        → (l : Listing) × (mirror.new ≡ with_listings m (ls ++ l ∷ []))
        × (applied.new.items ≡ all_applied m.held (ls ++ l ∷ []))
        × WalksRun (follow_run follower.old.host m rounds)
        (Holding follower.old.known ls) (point_of K.Link link.old follower.old.ahead)
        (Holding follower.old.known (ls ++ l ∷ [])) (point_of K.Link link.new follower.new.ahead)) }
    ensures stops { IfErr result (λ e. (m : Mirrored) (rounds : ℕ) (ls : List Listing)
        → mirror.old ≡ with_listings m ls → (length ls == rounds) ≡ false
        → StopsRun (follow_run follower.old.host m rounds)
        (Holding follower.old.known ls) (point_of K.Link link.old follower.old.ahead)
        (K.taken link.new) e mirror.new) }
    ensures stays { (follower.new.host ≡ follower.old.host)
        × (follower.new.known ≡ follower.old.known) }
    ensures calls { follower.new.calls ≤ follower.old.calls + 2 }
    ensures query { mirror.new.query ≡ mirror.old.query }
    ensures count { CountsErrors K.Link link.old link.new result }
{
    match follower.wait(link, mirror.base()) {
        Ok(_) => fetch_next(follower, link, mirror, applied),
        Err(error) => Err(error),
    }
}

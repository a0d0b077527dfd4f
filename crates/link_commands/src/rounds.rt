//! The rounds of `follow`. The line of each is written after it.

ghost use Rattle.std.specs.Prelude.{◌≡◌, ◌≤◌, ◌<◌, ◌+◌, ℕ, List, ◌==◌, false, length, IfErr, OnOk, MatchResult};
ghost use Rattle.share_asks.specs.Valid.{MayAsk};
ghost use Rattle.share_history.specs.Listings.{Listing};
ghost use Rattle.mirror_core.specs.Mirrored.{Mirrored};
ghost use Rattle.mirror_core.specs.declared.mirror.Applied.{Applied};
ghost use Rattle.command_core.specs.Endings.{IsWritten};
ghost use Rattle.command_core.specs.Seen.{output_of};
ghost use Rattle.mirror_client.specs.Points.{place};
ghost use Rattle.mirror_client.specs.Stages.{Asking, Holding};
ghost use Rattle.mirror_client.specs.Steps.{with_listings};
ghost use Rattle.link_commands.specs.FollowShare.{HasFollowed};
ghost use Rattle.link_commands.specs.Linked.{link_seen};
ghost use Rattle.link_commands.specs.RoundLines.{round_line, round_lines};
ghost use Rattle.link_commands.specs.Rounds.{CountsStop, EndsLine, EndsRound, EndsRounds, WritesRound};

use crate::shown::round_line;
use mirror_client::{FollowError, Follower};
use mirror_core::{Applied, Mirror};
use outside_net::{Link, Sink, put_all};
use std::alloc::Global;

/// Why rounds ended early.
#[derive(Drop)]
pub(crate) enum Stop {
    /// The line of a round could not be written whole.
    Output,
    /// The exchange with the share ended early, or an allocation failed.
    Link(FollowError),
}

/// Follows the mirror's listing for `rounds` rounds, 1 to 16,384, writes the line of each after it, and logs out.
pub(crate) fn follow_rounds<K: Link, W: Sink>(
    alloc: Global,
    host: &str,
    rounds: u32,
    mirror: &mut Mirror,
    link: &mut K,
    output: &mut W,
) -> Result<(), Stop>
    requires some { 1 ≤ rounds }
    requires few { rounds ≤ 16384 }
    requires asks { MayAsk mirror.old.query }
    requires fresh { K.faults link.old ≡ 0 }
    ensures followed { OnOk result ((applied : List Applied)
        × HasFollowed host.now mirror.old rounds (link_seen (K.taken link.old) (K.left link.old) (K.taken link.new) (K.faults link.new)) applied mirror.new
        × IsWritten (output_of W.Sink output.old) (output_of W.Sink output.new) (round_lines applied)) }
    ensures ends { IfErr result (λ stop. EndsRounds host.now mirror.old rounds
        (link_seen (K.taken link.old) (K.left link.old) (K.taken link.new) (K.faults link.new))
        (output_of W.Sink output.old) (output_of W.Sink output.new) stop) }
{
    let mut follower = match Follower::open(alloc, link, host) {
        Ok(follower) => follower,
        Err(error) => return Err(Stop::Link(error)),
    };
    match run_round(alloc, &mut follower, link, mirror, output) {
        Ok(()) => {}
        Err(stop) => return Err(stop),
    }
    for round in 1..rounds {
        match run_next_round(alloc, &mut follower, link, mirror, output) {
            Ok(()) => {}
            Err(stop) => return Err(stop),
        }
    }
    match follower.close(link) {
        Ok(()) => Ok(()),
        Err(error) => Err(Stop::Link(error)),
    }
}

// Requests one more listing, and writes its line.
fn run_round<K: Link, W: Sink>(
    alloc: Global,
    follower: &mut Follower,
    link: &mut K,
    mirror: &mut Mirror,
    output: &mut W,
) -> Result<(), Stop>
    requires few { follower.old.calls < 65536 }
    requires asks { MayAsk mirror.old.query }
    ensures tells { OnOk result ((m : Mirrored) (rounds : ℕ) (ls : List Listing)
        → mirror.old ≡ with_listings m ls
        → WritesRound follower.old.host follower.old.known m mirror.new rounds ls (Asking follower.old.known ls) (place (K.taken link.old) (K.left link.old) follower.old.ahead) (place (K.taken link.new) (K.left link.new) follower.new.ahead)
        (output_of W.Sink output.old) (output_of W.Sink output.new)) }
    ensures ends { IfErr result (λ stop. (m : Mirrored) (rounds : ℕ) (ls : List Listing)
        → mirror.old ≡ with_listings m ls
        → EndsRound follower.old.host follower.old.known m mirror.new rounds ls (Asking follower.old.known ls) (place (K.taken link.old) (K.left link.old) follower.old.ahead) (K.taken link.new)
        (output_of W.Sink output.old) (output_of W.Sink output.new) stop) }
    ensures stays { (follower.new.host ≡ follower.old.host)
        × (follower.new.known ≡ follower.old.known) }
    ensures calls { follower.new.calls ≡ follower.old.calls + 1 }
    ensures query { mirror.new.query ≡ mirror.old.query }
    ensures count { MatchResult result (λ _. K.faults link.new ≡ K.faults link.old)
        (λ stop. CountsStop (K.faults link.old) (K.faults link.new) stop) }
{
    match follower.listing(link, mirror) {
        Ok(done) => write_round(alloc, done, output),
        Err(error) => Err(Stop::Link(error)),
    }
}

// Writes the line of a round.
fn write_round<W: Sink>(alloc: Global, done: Applied, output: &mut W) -> Result<(), Stop>
    ensures { MatchResult result
        (λ _. IsWritten (output_of W.Sink output.old) (output_of W.Sink output.new) (round_line done))
        (λ stop. EndsLine done (output_of W.Sink output.old) (output_of W.Sink output.new) stop) }
{
    match round_line(alloc, done) {
        Ok(line) => match put_all(output, line.as_slice()) {
            Ok(()) => Ok(()),
            Err(_) => Err(Stop::Output),
        },
        Err(_) => Err(Stop::Link(FollowError::Memory)),
    }
}

// Waits for another revision, then requests one more listing and writes its line.
fn run_next_round<K: Link, W: Sink>(
    alloc: Global,
    follower: &mut Follower,
    link: &mut K,
    mirror: &mut Mirror,
    output: &mut W,
) -> Result<(), Stop>
    requires few { follower.old.calls < 65535 }
    requires asks { MayAsk mirror.old.query }
    ensures tells { OnOk result ((m : Mirrored) (rounds : ℕ) (ls : List Listing)
        → mirror.old ≡ with_listings m ls → (length ls == rounds) ≡ false
        → WritesRound follower.old.host follower.old.known m mirror.new rounds ls (Holding follower.old.known ls) (place (K.taken link.old) (K.left link.old) follower.old.ahead) (place (K.taken link.new) (K.left link.new) follower.new.ahead)
        (output_of W.Sink output.old) (output_of W.Sink output.new)) }
    ensures ends { IfErr result (λ stop. (m : Mirrored) (rounds : ℕ) (ls : List Listing)
        → mirror.old ≡ with_listings m ls → (length ls == rounds) ≡ false
        → EndsRound follower.old.host follower.old.known m mirror.new rounds ls (Holding follower.old.known ls) (place (K.taken link.old) (K.left link.old) follower.old.ahead) (K.taken link.new)
        (output_of W.Sink output.old) (output_of W.Sink output.new) stop) }
    ensures stays { (follower.new.host ≡ follower.old.host)
        × (follower.new.known ≡ follower.old.known) }
    ensures calls { follower.new.calls ≤ follower.old.calls + 2 }
    ensures query { mirror.new.query ≡ mirror.old.query }
    ensures count { MatchResult result (λ _. K.faults link.new ≡ K.faults link.old)
        (λ stop. CountsStop (K.faults link.old) (K.faults link.new) stop) }
{
    match follower.wait(link, mirror.base()) {
        Ok(_) => run_round(alloc, follower, link, mirror, output),
        Err(error) => Err(Stop::Link(error)),
    }
}

//! One round of a relay.

ghost use Rattle.std.specs.Prelude.{◌≡◌, ◌≤◌, ◌<◌, ◌+◌, ◌∷◌, ◌++◌, [], ℕ, List, false, ◌==◌, length, All, IfErr, OnOk, OnErr, MatchResult};
ghost use Rattle.item_model.specs.declared.request.Target.TheVariants.{Items};
ghost use Rattle.mirror_client.specs.Points.{Point, place};
ghost use Rattle.mirror_client.specs.Stages.{Asking, Holding};
ghost use Rattle.mirror_core.specs.Bodies.{IsRow};
ghost use Rattle.mirror_core.specs.Reading.{listing_of};
ghost use Rattle.mirror_core.specs.ToldSeen.{told_of};
ghost use Rattle.relayed_rows.specs.Relays.{relaying_at};
ghost use Rattle.share_history.specs.Keyed.{IsAscending};
ghost use Rattle.share_history.specs.Listings.{Listing};
ghost use Rattle.share_history.specs.Mirror.{Held};
ghost use Rattle.share_lock.specs.Passes.{lock_id, known, IsReady};
ghost use Rattle.share_server.specs.Passes.{Pass as Seen};
ghost use Rattle.relay_share.specs.Ends.{CountsRelay, EndsRelay, is_fault};
ghost use Rattle.relay_share.specs.Steps.{IsListed, IsUnread, IsUntaken, Stands, Takes};

use crate::report::{RelayEnd, Relayed, end_of, ending_of};
use crate::turns::{OwnShare, edit};
use dmap_tags::Tag;
use item_model::{Look, Meta, Range, Target};
use mirror_client::{FollowError, Follower};
use mirror_core::{MirrorError, ToldRef, told_by};
use outside_net::Link;
use relayed_rows::{Change, Relay, Untaken};
use share_core::Share;
use share_lock::Pass;
use std::sync::Wait;

/// Waits for another revision, and then does a round.
pub(crate) fn next_round<K: Link, R: Wait>(
    own: &OwnShare<'_, R>,
    pass: &mut Pass<Share>,
    follower: &mut Follower,
    link: &mut K,
    relay: &mut Relay,
    done: &mut Vec<Relayed>,
) -> Result<(), RelayEnd>
    requires ready { IsReady (lock_id own.now.lock.now) pass.old }
    requires few { follower.old.calls < 65535 }
    ensures ready { IsReady (lock_id own.now.lock.now) pass.new }
    ensures goes_on { OnOk result ((rounds : ℕ) (p : Point) (k : Seen) (ls : List Listing)
        → (length ls == rounds) ≡ false
        → Stands follower.old.host rounds p (Holding follower.old.known ls) (place (K.taken link.old) (K.left link.old) follower.old.ahead) k (known pass.old) done.old.items relay.old
        → (l : Listing) × Stands follower.old.host rounds p (Holding follower.old.known (ls ++ l ∷ [])) (place (K.taken link.new) (K.left link.new) follower.new.ahead) k (known pass.new) done.new.items relay.new) }
    ensures ends { IfErr result (λ end. (rounds : ℕ) (p : Point) (k : Seen) (ls : List Listing)
        → (length ls == rounds) ≡ false
        → Stands follower.old.host rounds p (Holding follower.old.known ls) (place (K.taken link.old) (K.left link.old) follower.old.ahead) k (known pass.old) done.old.items relay.old
        → EndsRelay follower.old.host rounds p (K.taken link.new) k (known pass.new) done.new.items end) }
    ensures stays { (follower.new.host ≡ follower.old.host)
        × (follower.new.known ≡ follower.old.known) }
    ensures calls { follower.new.calls ≤ follower.old.calls + 2 }
    ensures count { MatchResult result (λ _. K.faults link.new ≡ K.faults link.old)
        (λ end. CountsRelay (K.faults link.old) (K.faults link.new) end) }
{
    match follower.wait(link, relay.base()) {
        Ok(_) => relay_round(own, pass, follower, link, relay, done),
        Err(error) => Err(end_of(error)),
    }
}

/// Requests the listing, and makes it an edit of the relay's share.
pub(crate) fn relay_round<K: Link, R: Wait>(
    own: &OwnShare<'_, R>,
    pass: &mut Pass<Share>,
    follower: &mut Follower,
    link: &mut K,
    relay: &mut Relay,
    done: &mut Vec<Relayed>,
) -> Result<(), RelayEnd>
    requires ready { IsReady (lock_id own.now.lock.now) pass.old }
    requires few { follower.old.calls < 65536 }
    ensures ready { IsReady (lock_id own.now.lock.now) pass.new }
    ensures goes_on { OnOk result ((rounds : ℕ) (p : Point) (k : Seen) (ls : List Listing)
        → Stands follower.old.host rounds p (Asking follower.old.known ls) (place (K.taken link.old) (K.left link.old) follower.old.ahead) k (known pass.old) done.old.items relay.old
        → (l : Listing) × Stands follower.old.host rounds p (Holding follower.old.known (ls ++ l ∷ [])) (place (K.taken link.new) (K.left link.new) follower.new.ahead) k (known pass.new) done.new.items relay.new) }
    ensures ends { IfErr result (λ end. (rounds : ℕ) (p : Point) (k : Seen) (ls : List Listing)
        → Stands follower.old.host rounds p (Asking follower.old.known ls) (place (K.taken link.old) (K.left link.old) follower.old.ahead) k (known pass.old) done.old.items relay.old
        → EndsRelay follower.old.host rounds p (K.taken link.new) k (known pass.new) done.new.items end) }
    ensures stays { (follower.new.host ≡ follower.old.host)
        × (follower.new.known ≡ follower.old.known) }
    ensures calls { follower.new.calls ≡ follower.old.calls + 1 }
    ensures count { MatchResult result (λ _. K.faults link.new ≡ K.faults link.old)
        (λ end. CountsRelay (K.faults link.old) (K.faults link.new) end) }
{
    let look = Look {
        query: None,
        meta: Meta::All,
        base: relay.base(),
        range: Range::All,
    };
    match follower.body(link, Target::Items, look) {
        Ok(tag) => take_tag(own, pass, relay, done, &tag),
        Err(error) => Err(end_of(error)),
    }
}

// Applies the body of a response, if it is a listing.
fn take_tag<R: Wait>(
    own: &OwnShare<'_, R>,
    pass: &mut Pass<Share>,
    relay: &mut Relay,
    done: &mut Vec<Relayed>,
    tag: &Tag,
) -> Result<(), RelayEnd>
    requires ready { IsReady (lock_id own.now.lock.now) pass.old }
    ensures ready { IsReady (lock_id own.now.lock.now) pass.new }
    ensures taken { OnOk result ((held : Held) → IsAscending held.rows
        → relay.old ≡ relaying_at held
        → IsListed held tag.now (λ l. Takes held l (known pass.old) (known pass.new) done.old.items done.new.items relay.new)) }
    ensures untaken { IfErr result (λ end. (held : Held) → IsAscending held.rows
        → relay.old ≡ relaying_at held
        → IsUnread held tag.now (known pass.old) (known pass.new) end) }
    ensures kept { OnErr result (done.new.items ≡ done.old.items) }
    ensures faultless { IfErr result (λ end. is_fault end ≡ false) }
{
    match told_by(Target::Items, relay.base(), tag) {
        Ok(told) => take_listing(own, pass, relay, done, told),
        Err(error) => Err(refused_by(error)),
    }
}

// Returns the end for a body that is not a listing.
fn refused_by(error: MirrorError) -> RelayEnd
    ensures { result ≡ RelayEnd.Peer (FollowError.Listing error) }
{
    RelayEnd::Peer(FollowError::Listing(error))
}

// Applies a listing: requests its edit of the share, and reports it. Reserves capacity for the report first.
fn take_listing<R: Wait>(
    own: &OwnShare<'_, R>,
    pass: &mut Pass<Share>,
    relay: &mut Relay,
    done: &mut Vec<Relayed>,
    told: ToldRef<'_>,
) -> Result<(), RelayEnd>
    requires ready { IsReady (lock_id own.now.lock.now) pass.old }
    ensures ready { IsReady (lock_id own.now.lock.now) pass.new }
    ensures taken { OnOk result ((held : Held) → IsAscending held.rows
        → relay.old ≡ relaying_at held
        → All (IsRow Items) (listing_of Items (told_of told.entry)).rows
        → Takes held (listing_of Items (told_of told.entry)) (known pass.old) (known pass.new) done.old.items done.new.items relay.new) }
    ensures untaken { IfErr result (λ end. (held : Held) → IsAscending held.rows
        → relay.old ≡ relaying_at held
        → All (IsRow Items) (listing_of Items (told_of told.entry)).rows
        → IsUntaken held (listing_of Items (told_of told.entry)) (known pass.old) (known pass.new) end) }
    ensures kept { OnErr result (done.new.items ≡ done.old.items) }
    ensures faultless { IfErr result (λ end. is_fault end ≡ false) }
{
    if done.reserve(1).is_err() {
        return Err(RelayEnd::Memory);
    }
    let Change { batch, puts, drops } = match relay.take(told) {
        Ok(change) => change,
        Err(Untaken::Row { index }) => return Err(RelayEnd::Row { index }),
        Err(Untaken::Memory) => return Err(RelayEnd::Memory),
    };
    let answered = edit(own, pass, batch);
    if let Some(end) = ending_of(answered.served.status) {
        return Err(end);
    }
    done.push_reserved(Relayed {
        upstream: told.revision,
        delta: told.is_delta,
        puts,
        drops,
        revision: answered.revision,
    });
    Ok(())
}

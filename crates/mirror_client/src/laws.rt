//! Theorems about all followers. Each function has an empty body; its contract is the theorem.

ghost use Rattle.mirror_client.specs.Laws.{FollowersHoldTheFilter, FollowersHoldWhatTheShareHas};

/// A mirror that applied a share's listings, the first from base 0, at history lengths that never decrease, holds
/// what the share has at the last.
#[tactic(auto, using(crate::proofs::FilterFacts::followers_hold_the_filter))]
pub fn followers_hold_the_filter()
    ensures { FollowersHoldTheFilter }
{}

/// A mirror at revision 0 that followed a share for all its rounds holds what the share has at the last.
pub fn followers_hold_what_the_share_has()
    ensures { FollowersHoldWhatTheShareHas }
{}

//! Laws of all tags and of all mirrors. Each function has an empty body; its contract is a theorem about the
//! definitions.

ghost use Rattle.mirror_core.specs.Laws.{FullBodiesSuffice, ListingsAreFound, ListingsAreOne, ListingsAreNotStuck, MirrorsFollowAnswers, TagsAreStuckOnce};

/// A tag is at most one listing.
pub fn a_tag_is_one_listing()
    ensures { ListingsAreOne }
{}

/// No tag is both a listing and refused as none.
pub fn a_listing_is_not_stuck()
    ensures { ListingsAreNotStuck }
{}

/// A tag that is not a listing is refused at exactly one index.
#[tactic(auto, using(crate::proofs::LawFacts::tags_are_stuck_once))]
pub fn a_tag_is_stuck_once()
    ensures { TagsAreStuckOnce }
{}

/// The listing read from a tag is the one that the tag is.
pub fn a_listing_is_found()
    ensures { ListingsAreFound }
{}

/// A mirror that held the share's rows holds the share's present rows after the body of the response.
pub fn a_mirror_follows_answers()
    ensures { MirrorsFollowAnswers }
{}

/// After a full body every mirror holds the share's present rows.
pub fn a_full_body_suffices()
    ensures { FullBodiesSuffice }
{}

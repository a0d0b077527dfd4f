//! Laws of all histories. Each function has an empty body; its contract is a theorem about the definitions.

ghost use Rattle.share_history.specs.Laws.{LibraryAscends, OpensWithTheBatch, BatchesMakeRevisions, ListsBeginWithoutMembers, ListsBeginEmpty, MembersNeedAList, MembersFollowTheirItems, BasesArePast, NewTargetsAreNotKept, NothingChangedSinceNow, DeltasListNews, DeltasDeleteWhatIsGone, UntouchedStayShown, BodiesTellTheirRows, MirrorsFollow, MirrorsCatchUp, FullListingsSuffice, LoginsStayOrderly, MarksFollowAnswers};
ghost use Rattle.std.specs.Prelude.{◌≡◌};
ghost use Rattle.share_history.specs.Numbers.{first_revision, base_list, live_sessions, most_entries, most_edits, most_lists};
ghost use Rattle.share_history.specs.declared.numbers.TheConstants.{FIRST_REVISION, BASE_LIST, LIVE_SESSIONS, MAX_ENTRIES, MAX_EDITS, MAX_LISTS};

/// The constants are the numbers in the definitions.
pub fn constants_are_the_numbers()
    ensures first { FIRST_REVISION ≡ first_revision }
    ensures base { BASE_LIST ≡ base_list }
    ensures live { LIVE_SESSIONS ≡ live_sessions }
    ensures entries { MAX_ENTRIES ≡ most_entries }
    ensures edits { MAX_EDITS ≡ most_edits }
    ensures lists { MAX_LISTS ≡ most_lists }
{}

/// The library has each id once, in ascending order.
#[tactic(auto, using(crate::proofs::LawFacts::library_ascends))]
pub fn the_library_ascends()
    ensures { LibraryAscends }
{}

/// A share opened with a batch has exactly the batch's edits.
#[tactic(auto, using(crate::proofs::LawFacts::opens_with_the_batch))]
pub fn a_share_opens_with_its_batch()
    ensures { OpensWithTheBatch }
{}

/// The history at a revision has the batches up to it.
pub fn batches_make_revisions()
    ensures { BatchesMakeRevisions }
{}

/// A put or a drop of a list removes all its members.
pub fn a_list_begins_without_members()
    ensures { ListsBeginWithoutMembers }
{}

/// A playlist has no rows right after its put, and a list none right after its drop.
pub fn a_list_begins_empty()
    ensures { ListsBeginEmpty }
{}

/// A member that is put while no playlist has that id never appears.
#[tactic(auto, using(crate::proofs::LawFacts::members_need_a_list))]
pub fn a_member_needs_a_list()
    ensures { MembersNeedAList }
{}

/// A member's row disappears with its item and comes back with it.
pub fn a_member_follows_its_item()
    ensures { MembersFollowTheirItems }
{}

/// A base in the delta window is a revision that the share had or has.
#[tactic(auto, using(crate::proofs::LawFacts::bases_are_past))]
pub fn a_base_is_past()
    ensures { BasesArePast }
{}

/// A revision from before its list existed is outside the delta window.
pub fn a_new_target_is_not_kept()
    ensures { NewTargetsAreNotKept }
{}

/// Under each key a delta lists the shown tag if it differs from the one at the base, else nothing.
#[tactic(auto, using(crate::proofs::DeltaFacts::deltas_list_news))]
pub fn a_delta_lists_news()
    ensures { DeltasListNews }
{}

/// A delta deletes exactly the keys that showed something at the base and show nothing at present.
#[tactic(auto, using(crate::proofs::DeltaFacts::deltas_delete_what_is_gone))]
pub fn a_delta_deletes_what_is_gone()
    ensures { DeltasDeleteWhatIsGone }
{}

/// A key that no edit touched since a base in the delta window shows what it showed then.
#[tactic(auto, using(crate::proofs::DeltaFacts::untouched_stay_shown))]
pub fn an_untouched_key_stays_shown()
    ensures { UntouchedStayShown }
{}

/// A delta from the present revision lists and deletes nothing.
pub fn nothing_changed_since_now()
    ensures { NothingChangedSinceNow }
{}

/// A body lists as many rows as its row count states.
pub fn a_body_tells_its_rows()
    ensures { BodiesTellTheirRows }
{}

/// After a full listing a mirror holds what it should, whatever it held.
pub fn a_full_listing_suffices()
    ensures { FullListingsSuffice }
{}

/// A mirror that held the share's rows at its base holds the share's present rows after the response.
#[tactic(auto, using(crate::proofs::MirrorFacts::mirrors_follow))]
pub fn a_mirror_follows()
    ensures { MirrorsFollow }
{}

/// A mirror that was up to date is up to date after the next response, whatever batches came in between.
#[tactic(auto, using(crate::proofs::MirrorFacts::mirrors_catch_up))]
pub fn a_mirror_catches_up()
    ensures { MirrorsCatchUp }
{}

/// A login with the next id keeps the ids in order.
pub fn a_login_stays_orderly()
    ensures { LoginsStayOrderly }
{}

/// A response to a session sets its last-answered length, and only live sessions keep one.
pub fn marks_follow_answers()
    ensures { MarksFollowAnswers }
{}

//! Plans the answers to looks.

ghost use Rattle.std.specs.Prelude.{◌≡◌, ◌≤◌, ◌+◌, ◌*◌, List, All as AllOf, true, filter, length, option_copied, IfOk};
ghost use Rattle.item_model.specs.declared.changes.Edit.{Edit};
ghost use Rattle.item_store.specs.Stands.{StandsFor, floor_of};
ghost use Rattle.listing_plan.specs.Plans.{key_of, keyed};
ghost use Rattle.listing_plan.specs.declared.plan.Plan.TheVariants.{Rows};
ghost use Rattle.playlist_store.specs.Stands as lists_stand;
ghost use Rattle.share_history.specs.Histories.{edits};
ghost use Rattle.share_history.specs.Keyed.{pairs_at};
ghost use Rattle.share_history.specs.Kept.{is_kept, touched};
ghost use Rattle.share_history.specs.Listings.{member_of, listing, full_listing, delta_listing};
ghost use Rattle.share_listings.specs.Answers.{HaveFew, StartFrom, looked_at, most_ticks};
ghost use Rattle.share_listings.specs.Changes.{TellsSince, listed_at, is_deleted};
ghost use Rattle.share_listings.specs.Memberships.{Tells, TellsFew};

use crate::changed::{Changed, changed_at};
use crate::membership::{Membership, is_kept, membership_of, touched_keys};
use crate::plans::delta_plan;
use crate::whole::full;
use item_model::{Look, Target};
use item_store::ItemStore;
use listing_plan::Plan;
use playlist_store::PlaylistStore;
use song_query::Steps;
use std::alloc::{AllocError, Global};
use std::sync::ledger::Ledger;

/// Plans the listing of a target that answers a look: the change since its base if the stores have it, or else all rows.
/// All rows of the library, which container 1 has too, may start from candidates. A container that does not exist has no rows.
pub fn listing<L: Ledger>(
    alloc: Global,
    items: &ItemStore,
    lists: &PlaylistStore,
    target: Target,
    look: Look,
    candidates: Option<&[u32]>,
    steps: &mut Steps<L>,
) -> Result<Plan, AllocError>
    requires few { HaveFew items.now lists.now }
    requires start { (bs : List (List Edit)) → StandsFor bs items.now
        → StartFrom (edits bs) look.query (option_copied candidates) }
    ensures listing { IfOk result (λ plan. (bs : List (List Edit)) → StandsFor bs items.now
        → lists_stand.StandsFor bs lists.now
        → plan ≡ Rows (record { target = target; listing = listing items.now.keep bs target look })) }
    ensures cost { (bs : List (List Edit)) → StandsFor bs items.now
        → lists_stand.StandsFor bs lists.now
        → steps.new ≤ steps.old + most_ticks items.now.keep bs target look.base (option_copied candidates.entry) }
{
    let membership = membership_of(target, lists);
    answer(alloc, items, membership, target, look, candidates, steps)
}

/// Plans all rows of a target that a look selects, cut to its range. For all items it may start from candidates.
pub fn full_listing<L: Ledger>(
    alloc: Global,
    items: &ItemStore,
    lists: &PlaylistStore,
    target: Target,
    look: Look,
    candidates: Option<&[u32]>,
    steps: &mut Steps<L>,
) -> Result<Plan, AllocError>
    requires few { HaveFew items.now lists.now }
    requires start { (bs : List (List Edit)) → StandsFor bs items.now
        → StartFrom (edits bs) look.query (option_copied candidates) }
    ensures listing { IfOk result (λ plan. (bs : List (List Edit)) → StandsFor bs items.now
        → lists_stand.StandsFor bs lists.now
        → plan ≡ Rows (record { target = target; listing = full_listing bs target look })) }
    ensures cost { (bs : List (List Edit)) → StandsFor bs items.now
        → lists_stand.StandsFor bs lists.now
        → steps.new ≤ steps.old + looked_at (edits bs) target (option_copied candidates.entry) }
{
    let membership = membership_of(target, lists);
    full(alloc, items, membership, target, look, candidates, steps)
}

/// Plans the listing of a target with these members.
pub(crate) fn answer<L: Ledger>(
    alloc: Global,
    items: &ItemStore,
    membership: Membership<'_>,
    target: Target,
    look: Look,
    candidates: Option<&[u32]>,
    steps: &mut Steps<L>,
) -> Result<Plan, AllocError>
    requires few { TellsFew items.now target membership }
    requires start { (bs : List (List Edit)) → StandsFor bs items.now
        → StartFrom (edits bs) look.query (option_copied candidates) }
    ensures listing { IfOk result (λ plan. (bs : List (List Edit))
        → Tells bs items.now target membership.entry
        → plan ≡ Rows (record { target = target; listing = listing items.now.keep bs target look })) }
    ensures cost { (bs : List (List Edit)) → Tells bs items.now target membership.entry
        → steps.new ≤ steps.old + most_ticks items.now.keep bs target look.base (option_copied candidates.entry) }
{
    if is_kept(items, membership, look.base) {
        delta(alloc, items, membership, target, look, steps)
    } else {
        full(alloc, items, membership, target, look, candidates, steps)
    }
}

/// Plans what changed since the base of the look, which is kept.
fn delta<L: Ledger>(
    alloc: Global,
    items: &ItemStore,
    membership: Membership<'_>,
    target: Target,
    look: Look,
    steps: &mut Steps<L>,
) -> Result<Plan, AllocError>
    requires few { TellsFew items.now target membership }
    requires kept { (bs : List (List Edit)) → Tells bs items.now target membership
        → is_kept items.now.keep bs target look.base ≡ true }
    requires from { floor_of items.now.keep items.now.revision ≤ look.base }
    requires to { look.base ≤ items.now.revision }
    ensures listing { IfOk result (λ plan. (bs : List (List Edit))
        → Tells bs items.now target membership.entry
        → plan ≡ Rows (record { target = target; listing = delta_listing bs target look look.base })) }
    ensures cost { (bs : List (List Edit)) → Tells bs items.now target membership.entry
        → steps.new ≤ steps.old + 4 * length (touched bs target look.base) }
{
    let changed = changed_since(alloc, items, membership, target, &look, steps)?;
    Ok(delta_plan(target, items.revision(), look, changed))
}

/// Returns what became of the touched keys since the base of a look, which is kept.
fn changed_since<L: Ledger>(
    alloc: Global,
    items: &ItemStore,
    membership: Membership<'_>,
    target: Target,
    look: &Look,
    steps: &mut Steps<L>,
) -> Result<Changed, AllocError>
    requires few { TellsFew items.now target membership }
    requires from { floor_of items.now.keep items.now.revision ≤ look.now.base }
    requires to { look.now.base ≤ items.now.revision }
    ensures rows { IfOk result (λ changed. (bs : List (List Edit))
        → TellsSince bs items.now target membership.entry look.now.base
        → keyed changed.rows.items ≡ pairs_at (listed_at bs target look.now) (touched bs target look.now.base)) }
    ensures gone { IfOk result (λ changed. (bs : List (List Edit))
        → TellsSince bs items.now target membership.entry look.now.base
        → changed.gone.items ≡ filter (is_deleted bs target look.now) (touched bs target look.now.base)) }
    ensures members { IfOk result
        (λ changed. AllOf (λ row. row.member ≡ member_of target (key_of row)) changed.rows.items) }
    ensures cost { (bs : List (List Edit)) → Tells bs items.now target membership.entry
        → steps.new ≤ steps.old + 2 * length (touched bs target look.now.base) }
{
    let keys = touched_keys(items, membership, look.base)?;
    changed_at(
        alloc,
        items,
        membership,
        target,
        look,
        keys.as_slice(),
        steps,
    )
}

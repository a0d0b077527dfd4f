//! The same listings for callers that count no steps.

ghost use Rattle.std.specs.Prelude.{◌≡◌, ◌<◌, List, IfOk};
ghost use Rattle.item_model.specs.declared.changes.Edit.{Edit};
ghost use Rattle.item_model.specs.declared.request.Target.TheVariants.{Items};
ghost use Rattle.item_store.specs.Stands.{StandsFor};
ghost use Rattle.listing_plan.specs.declared.plan.Plan.TheVariants.{Rows};
ghost use Rattle.playlist_store.specs.Stands as lists_stand;
ghost use Rattle.share_history.specs.Listings.{listing, full_listing};
ghost use Rattle.share_listings.specs.Answers.{HasFew, HaveFew};

use crate::answers::{answer, full_listing};
use crate::membership::Membership;
use crate::whole::full;
use item_model::{Look, Target};
use item_store::ItemStore;
use listing_plan::Plan;
use playlist_store::PlaylistStore;
use song_query::Steps;
use std::alloc::{AllocError, Global};
use std::marker::Brand;
use std::sync::ledger::{Blank, Ledger};

/// Plans the listing of items that answers a look: the change since its base if the store has it, or else all rows.
pub fn items_listing(alloc: Global, store: &ItemStore, look: Look) -> Result<Plan, AllocError>
    requires few { HasFew store.now }
    ensures { IfOk result (λ plan. (bs : List (List Edit)) → StandsFor bs store.now
        → plan ≡ Rows (record { target = Items; listing = listing store.now.keep bs Items look })) }
{
    items_by::<Brand>(Blank::new(1), alloc, store, look)
}

fn items_by<L: Ledger>(
    blank: Blank,
    alloc: Global,
    store: &ItemStore,
    look: Look,
) -> Result<Plan, AllocError>
    requires name { blank.name ≡ L.name }
    requires parts { blank.parts ≡ L.parts }
    requires any { 0 < blank.parts }
    requires few { HasFew store.now }
    ensures { IfOk result (λ plan. (bs : List (List Edit)) → StandsFor bs store.now
        → plan ≡ Rows (record { target = Items; listing = listing store.now.keep bs Items look })) }
{
    let mut steps = Steps::<L>::open(blank);
    answer(
        alloc,
        store,
        Membership::Library,
        Target::Items,
        look,
        None,
        &mut steps,
    )
}

/// Plans all items that a look selects, cut to its range.
pub fn full_items(alloc: Global, store: &ItemStore, look: Look) -> Result<Plan, AllocError>
    requires few { HasFew store.now }
    ensures { IfOk result (λ plan. (bs : List (List Edit)) → StandsFor bs store.now
        → plan ≡ Rows (record { target = Items; listing = full_listing bs Items look })) }
{
    full_by::<Brand>(Blank::new(1), alloc, store, look)
}

fn full_by<L: Ledger>(
    blank: Blank,
    alloc: Global,
    store: &ItemStore,
    look: Look,
) -> Result<Plan, AllocError>
    requires name { blank.name ≡ L.name }
    requires parts { blank.parts ≡ L.parts }
    requires any { 0 < blank.parts }
    requires few { HasFew store.now }
    ensures { IfOk result (λ plan. (bs : List (List Edit)) → StandsFor bs store.now
        → plan ≡ Rows (record { target = Items; listing = full_listing bs Items look })) }
{
    let mut steps = Steps::<L>::open(blank);
    full(
        alloc,
        store,
        Membership::Library,
        Target::Items,
        look,
        None,
        &mut steps,
    )
}

/// Plans all rows of a target that a look selects, cut to its range. A container that does not exist has none.
pub fn full_target(
    alloc: Global,
    items: &ItemStore,
    lists: &PlaylistStore,
    target: Target,
    look: Look,
) -> Result<Plan, AllocError>
    requires few { HaveFew items.now lists.now }
    ensures { IfOk result (λ plan. (bs : List (List Edit)) → StandsFor bs items.now
        → lists_stand.StandsFor bs lists.now
        → plan ≡ Rows (record { target = target; listing = full_listing bs target look })) }
{
    target_by::<Brand>(Blank::new(1), alloc, items, lists, target, look)
}

fn target_by<L: Ledger>(
    blank: Blank,
    alloc: Global,
    items: &ItemStore,
    lists: &PlaylistStore,
    target: Target,
    look: Look,
) -> Result<Plan, AllocError>
    requires name { blank.name ≡ L.name }
    requires parts { blank.parts ≡ L.parts }
    requires any { 0 < blank.parts }
    requires few { HaveFew items.now lists.now }
    ensures { IfOk result (λ plan. (bs : List (List Edit)) → StandsFor bs items.now
        → lists_stand.StandsFor bs lists.now
        → plan ≡ Rows (record { target = target; listing = full_listing bs target look })) }
{
    let mut steps = Steps::<L>::open(blank);
    full_listing(alloc, items, lists, target, look, None, &mut steps)
}

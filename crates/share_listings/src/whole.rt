//! Plans the full listings of targets.

ghost use Rattle.std.specs.Prelude.{◌≡◌, ◌≤◌, ◌+◌, ◌==◌, List, All as AllOf, None, true, false, map, option_copied, IfOk};
ghost use Rattle.item_model.specs.declared.changes.Edit.{Edit};
ghost use Rattle.item_model.specs.declared.request.Target.TheVariants.{Container};
ghost use Rattle.item_store.specs.Stands.{StandsFor};
ghost use Rattle.listing_plan.specs.Plans.{key_of, keyed};
ghost use Rattle.listing_plan.specs.declared.plan.Plan.TheVariants.{Rows};
ghost use Rattle.playlist_store.specs.Words.{pair_of};
ghost use Rattle.playlist_store.specs.Stands as lists_stand;
ghost use Rattle.share_history.specs.Histories.{edits};
ghost use Rattle.share_history.specs.Listings.{member_of, full_listing};
ghost use Rattle.share_history.specs.Numbers.{base_list};
ghost use Rattle.share_history.specs.Rows.{rows};
ghost use Rattle.share_listings.specs.Answers.{StartFrom, looked_at, is_library};
ghost use Rattle.share_listings.specs.Memberships.{IsBeside, Tells, TellsFew};

use crate::asked::{rows_at, rows_of};
use crate::library::unselected;
use crate::membership::Membership;
use crate::plans::full_plan;
use crate::sheets::rows_asked;
use item_model::{Look, Query, Target};
use item_store::ItemStore;
use listing_plan::{Plan, PlanRow};
use playlist_store::{Member, PlaylistStore};
use song_query::Steps;
use std::alloc::{AllocError, Global};
use std::sync::ledger::Ledger;

/// Plans all rows that a look selects, cut to its range. For all items it may start from candidates.
pub(crate) fn full<L: Ledger>(
    alloc: Global,
    items: &ItemStore,
    membership: Membership<'_>,
    target: Target,
    look: Look,
    candidates: Option<&[u32]>,
    steps: &mut Steps<L>,
) -> Result<Plan, AllocError>
    requires few { TellsFew items.now target membership }
    requires start { (bs : List (List Edit)) → StandsFor bs items.now
        → StartFrom (edits bs) look.query (option_copied candidates) }
    ensures listing { IfOk result (λ plan. (bs : List (List Edit))
        → Tells bs items.now target membership.entry
        → plan ≡ Rows (record { target = target; listing = full_listing bs target look })) }
    ensures cost { (bs : List (List Edit)) → Tells bs items.now target membership.entry
        → steps.new ≤ steps.old + looked_at (edits bs) target (option_copied candidates.entry) }
{
    match membership {
        Membership::Library if look.query.is_none() => unselected(alloc, items, target, look),
        _ => selected(alloc, items, membership, target, look, candidates, steps),
    }
}

/// Plans those that its query selects.
fn selected<L: Ledger>(
    alloc: Global,
    items: &ItemStore,
    membership: Membership<'_>,
    target: Target,
    look: Look,
    candidates: Option<&[u32]>,
    steps: &mut Steps<L>,
) -> Result<Plan, AllocError>
    requires few { TellsFew items.now target membership }
    requires start { (bs : List (List Edit)) → StandsFor bs items.now
        → StartFrom (edits bs) look.query (option_copied candidates) }
    ensures listing { IfOk result (λ plan. (bs : List (List Edit))
        → Tells bs items.now target membership.entry
        → plan ≡ Rows (record { target = target; listing = full_listing bs target look })) }
    ensures cost { (bs : List (List Edit)) → Tells bs items.now target membership.entry
        → steps.new ≤ steps.old + looked_at (edits bs) target (option_copied candidates.entry) }
{
    let query = look.query.as_ref();
    let rows = rows_selected(alloc, items, membership, target, query, candidates, steps)?;
    Ok(full_plan(target, items.revision(), look, rows))
}

/// Returns the rows of a target that a query selects. For all items it may start from candidates.
fn rows_selected<L: Ledger>(
    alloc: Global,
    items: &ItemStore,
    membership: Membership<'_>,
    target: Target,
    query: Option<&Query>,
    candidates: Option<&[u32]>,
    steps: &mut Steps<L>,
) -> Result<Vec<PlanRow>, AllocError>
    requires beside { IsBeside membership }
    requires start { (bs : List (List Edit)) → StandsFor bs items.now
        → StartFrom (edits bs) (option_copied query) (option_copied candidates) }
    ensures rows { IfOk result (λ found. (bs : List (List Edit))
        → Tells bs items.now target membership.entry
        → keyed found.items ≡ rows (edits bs) target (option_copied query.entry)) }
    ensures members { IfOk result
        (λ found. AllOf (λ row. row.member ≡ member_of target (key_of row)) found.items) }
    ensures cost { (bs : List (List Edit)) → Tells bs items.now target membership.entry
        → steps.new ≤ steps.old + looked_at (edits bs) target (option_copied candidates.entry) }
{
    match membership {
        Membership::Library => rows_of_all(alloc, items, target, query, candidates, steps),
        Membership::Members { lists, list } => {
            rows_of_list(alloc, items, lists, list, target, query, steps)
        }
    }
}

/// Returns the items that a query selects. It may start from candidates.
fn rows_of_all<L: Ledger>(
    alloc: Global,
    items: &ItemStore,
    target: Target,
    query: Option<&Query>,
    candidates: Option<&[u32]>,
    steps: &mut Steps<L>,
) -> Result<Vec<PlanRow>, AllocError>
    requires start { (bs : List (List Edit)) → StandsFor bs items.now
        → StartFrom (edits bs) (option_copied query) (option_copied candidates) }
    ensures rows { IfOk result (λ found. (bs : List (List Edit)) → StandsFor bs items.now
        → is_library target ≡ true
        → keyed found.items ≡ rows (edits bs) target (option_copied query.entry)) }
    ensures members { IfOk result
        (λ found. AllOf (λ row. row.member ≡ member_of target (key_of row)) found.items) }
    ensures cost { (bs : List (List Edit)) → StandsFor bs items.now → is_library target ≡ true
        → steps.new ≤ steps.old + looked_at (edits bs) target (option_copied candidates.entry) }
{
    match candidates {
        Some(ids) => rows_at(alloc, items, Membership::Library, target, ids, query, steps),
        None => rows_asked(alloc, items.rows(), target, query, steps),
    }
}

/// Returns the members of a list that a query selects.
fn rows_of_list<L: Ledger>(
    alloc: Global,
    items: &ItemStore,
    lists: &PlaylistStore,
    list: u32,
    target: Target,
    query: Option<&Query>,
    steps: &mut Steps<L>,
) -> Result<Vec<PlanRow>, AllocError>
    requires beside { (list == base_list) ≡ false }
    ensures rows { IfOk result (λ found. (bs : List (List Edit)) → StandsFor bs items.now
        → lists_stand.StandsFor bs lists.now
        → target ≡ Container list → keyed found.items ≡ rows (edits bs) target (option_copied query.entry)) }
    ensures members { IfOk result
        (λ found. AllOf (λ row. row.member ≡ member_of target (key_of row)) found.items) }
    ensures cost { (bs : List (List Edit)) → StandsFor bs items.now
        → lists_stand.StandsFor bs lists.now
        → target ≡ Container list → steps.new ≤ steps.old + looked_at (edits bs) target None }
{
    let members = members_of(alloc, items, lists, list)?;
    rows_of(alloc, items, target, members.as_slice(), query, steps)
}

/// Returns the members of a list whose items exist. A list that does not exist has none.
fn members_of(
    alloc: Global,
    items: &ItemStore,
    lists: &PlaylistStore,
    list: u32,
) -> Result<Vec<Member>, AllocError>
    requires beside { (list == base_list) ≡ false }
    ensures { IfOk result (λ members. (bs : List (List Edit)) → StandsFor bs items.now
        → lists_stand.StandsFor bs lists.now
        → map pair_of members.items ≡ map (λ row. (row.0, row.1.id)) (rows (edits bs) (Container list) None)) }
{
    match lists.members(list, items) {
        Ok(Some(members)) => Ok(members),
        Ok(None) => Ok(Vec::new(alloc)),
        Err(error) => Err(error),
    }
}

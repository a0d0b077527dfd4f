//! The rows that a look selects, with each evaluation of its query counted.

ghost use Rattle.std.specs.Prelude.{◌≡◌, ◌≤◌, ◌+◌, ◌++◌, ◌∷◌, [], List, All as AllOf, length, map, option_copied, unwrap_or, if◌then◌else◌, IfOk, OnOk};
ghost use Rattle.item_model.specs.declared.changes.Edit.{Edit};
ghost use Rattle.item_model.specs.declared.request.Target.{Target};
ghost use Rattle.item_store.specs.Stands.{StandsFor};
ghost use Rattle.listing_plan.specs.Plans.{key_of, keyed};
ghost use Rattle.share_history.specs.Histories.{edits};
ghost use Rattle.share_history.specs.Keyed.{pairs_at};
ghost use Rattle.share_history.specs.LastSaid.{item_at};
ghost use Rattle.share_history.specs.Listings.{member_of};
ghost use Rattle.share_history.specs.Rows.{in_target, row_at, is_selected};
ghost use Rattle.share_listings.specs.Memberships.{IsBeside, Tells, AreMembersOf};

use crate::membership::{Membership, item_under};
use item_model::{Query, SharedRow, Target};
use item_store::ItemStore;
use listing_plan::PlanRow;
use playlist_store::Member;
use song_query::{Searched, Steps, matches};
use std::alloc::{AllocError, Global};
use std::sync::ledger::Ledger;

/// Returns the rows under those keys that exist and are selected.
pub(crate) fn rows_at<L: Ledger>(
    alloc: Global,
    items: &ItemStore,
    membership: Membership<'_>,
    target: Target,
    keys: &[u32],
    query: Option<&Query>,
    steps: &mut Steps<L>,
) -> Result<Vec<PlanRow>, AllocError>
    requires { IsBeside membership }
    ensures rows { IfOk result (λ found. (bs : List (List Edit))
        → Tells bs items.now target membership.entry
        → keyed found.items ≡ pairs_at (row_at (edits bs) target (option_copied query.entry)) keys.now) }
    ensures members { IfOk result
        (λ found. AllOf (λ row. row.member ≡ member_of target (key_of row)) found.items) }
    ensures cost { steps.new ≤ steps.old + length keys.now }
{
    let mut rows = Vec::new(alloc);
    for key in keys {
        push_key(&mut rows, items, membership, target, *key, query, steps)?;
    }
    Ok(rows)
}

/// Returns the rows of those members that exist and are selected.
pub(crate) fn rows_of<L: Ledger>(
    alloc: Global,
    items: &ItemStore,
    target: Target,
    members: &[Member],
    query: Option<&Query>,
    steps: &mut Steps<L>,
) -> Result<Vec<PlanRow>, AllocError>
    ensures rows { IfOk result (λ found. (bs : List (List Edit)) → StandsFor bs items.now
        → AreMembersOf (edits bs) target members.now
        → keyed found.items ≡ pairs_at (row_at (edits bs) target (option_copied query.entry)) (map (λ member. member.key) members.now)) }
    ensures members { IfOk result
        (λ found. AllOf (λ row. row.member ≡ member_of target (key_of row)) found.items) }
    ensures cost { steps.new ≤ steps.old + length members.now }
{
    let mut rows = Vec::new(alloc);
    for member in members {
        push_member(&mut rows, items, target, *member, query, steps)?;
    }
    Ok(rows)
}

/// Adds the row under a key, if it exists and is selected.
fn push_key<L: Ledger>(
    rows: &mut Vec<PlanRow>,
    items: &ItemStore,
    membership: Membership<'_>,
    target: Target,
    key: u32,
    query: Option<&Query>,
    steps: &mut Steps<L>,
) -> Result<(), AllocError>
    requires { IsBeside membership }
    ensures rows { OnOk result ((bs : List (List Edit)) → Tells bs items.now target membership.entry
        → keyed rows.new.items ≡ keyed rows.old.items ++ pairs_at (row_at (edits bs) target (option_copied query.entry)) (key ∷ [])) }
    ensures members { AllOf (λ row. row.member ≡ member_of target (key_of row)) rows.old.items
        → AllOf (λ row. row.member ≡ member_of target (key_of row)) rows.new.items }
    ensures cost { steps.new ≤ steps.old + 1 }
{
    match item_under(items, membership, key) {
        Some(item) => push_member(rows, items, target, Member { key, item }, query, steps),
        None => Ok(()),
    }
}

/// Adds the item of a member under its key, if it exists and is selected.
fn push_member<L: Ledger>(
    rows: &mut Vec<PlanRow>,
    items: &ItemStore,
    target: Target,
    member: Member,
    query: Option<&Query>,
    steps: &mut Steps<L>,
) -> Result<(), AllocError>
    ensures rows { OnOk result ((bs : List (List Edit)) → StandsFor bs items.now
        → in_target (edits bs) target member.key ≡ item_at (edits bs) member.item
        → keyed rows.new.items ≡ keyed rows.old.items ++ pairs_at (row_at (edits bs) target (option_copied query.entry)) (member.key ∷ [])) }
    ensures members { AllOf (λ row. row.member ≡ member_of target (key_of row)) rows.old.items
        → AllOf (λ row. row.member ≡ member_of target (key_of row)) rows.new.items }
    ensures cost { steps.new ≤ steps.old + 1 }
{
    match items.shared(member.item) {
        Ok(Some(row)) => push_asked(rows, member_of(target, member.key), row, query, steps),
        Ok(None) => Ok(()),
        Err(error) => Err(error),
    }
}

/// Adds a row, if it is selected.
fn push_asked<L: Ledger>(
    rows: &mut Vec<PlanRow>,
    member: Option<u32>,
    row: SharedRow,
    query: Option<&Query>,
    steps: &mut Steps<L>,
) -> Result<(), AllocError>
    ensures rows { OnOk result (keyed rows.new.items ≡ keyed rows.old.items
        ++ (if is_selected (option_copied query.entry) row then (unwrap_or member row.id, row) ∷ [] else [])) }
    ensures members { (target : Target) → member ≡ member_of target (unwrap_or member row.id)
        → AllOf (λ row. row.member ≡ member_of target (key_of row)) rows.old.items → AllOf (λ row. row.member ≡ member_of target (key_of row)) rows.new.items }
    ensures cost { steps.new ≤ steps.old + 1 }
{
    if is_selected(query, row.row(), steps) {
        rows.push(PlanRow { member, row })?;
    }
    Ok(())
}

/// Returns the member key that a listing states of a row: only in a container.
pub(crate) fn member_of(target: Target, key: u32) -> Option<u32>
    ensures { result ≡ member_of target key }
{
    match target {
        Target::Items => None,
        Target::Container(_) => Some(key),
    }
}

/// Returns whether a look with this query selects the row that `row` represents.
pub(crate) fn is_selected<R: Searched, L: Ledger>(
    query: Option<&Query>,
    row: &R,
    steps: &mut Steps<L>,
) -> bool
    ensures asked { result ≡ is_selected (option_copied query.entry) (R.represents row.now) }
    ensures cost { steps.new ≤ steps.old + 1 }
{
    match query {
        Some(query) => matches(query, row, steps),
        None => true,
    }
}

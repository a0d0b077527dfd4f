//! What changed since a kept base: the rows that a delta lists, and the keys that it deletes.

ghost use Rattle.std.specs.Prelude.{◌≡◌, ◌≤◌, ◌+◌, ◌*◌, ◌++◌, ◌∷◌, [], ◌&&◌, ℕ, List, All as AllOf, Option, Some, is_some, is_none, filter, length, option_copied, IfOk, OnOk};
ghost use Rattle.std.specs.Option.{option_and_then};
ghost use Rattle.item_model.specs.Projection.{asked};
ghost use Rattle.item_model.specs.declared.changes.Edit.{Edit};
ghost use Rattle.item_model.specs.declared.item.Row.{Row as ItemRow};
ghost use Rattle.item_model.specs.declared.request.Look.{Look as PlainLook};
ghost use Rattle.item_model.specs.declared.request.Target.{Target};
ghost use Rattle.item_store.specs.Stands.{StandsFor, floor_of};
ghost use Rattle.listing_plan.specs.Plans.{key_of, keyed};
ghost use Rattle.share_history.specs.Histories.{edits, up_to};
ghost use Rattle.share_history.specs.Keyed.{pairs_at};
ghost use Rattle.share_history.specs.Listings.{member_of};
ghost use Rattle.share_history.specs.Rows.{in_target, row_at, if_selected};
ghost use Rattle.share_listings.specs.Changes.{TellsSince, IsChange, unless_shown, listed_at, is_deleted, listed_in, is_deletion};
ghost use Rattle.share_listings.specs.Memberships.{IsBeside, Tells};

use crate::asked::{is_selected, member_of};
use crate::membership::{Membership, item_then, item_under};
use item_model::{Look, Property, Query, Row, ShownProperties, Target, is_shown_alike};
use item_store::ItemStore;
use listing_plan::PlanRow;
use song_query::Steps;
use std::alloc::{AllocError, Global};
use std::sync::ledger::Ledger;

/// The rows that a delta lists and the keys that it deletes, in ascending order.
#[derive(Drop)]
pub(crate) struct Changed {
    pub rows: Vec<PlanRow>,
    pub gone: Vec<u32>,
}

/// What became of a key since a base.
#[derive(Clone, Copy)]
pub(crate) enum Change<'a> {
    /// Nothing is shown, as before, or the same tag.
    Unchanged,
    /// The row is new, or is shown as another tag.
    Listed(&'a Row),
    /// There was a row, and now there is none.
    Gone,
}

/// Returns what became of keys since the base of a look. It evaluates the query at most twice for each key.
pub(crate) fn changed_at<L: Ledger>(
    alloc: Global,
    items: &ItemStore,
    membership: Membership<'_>,
    target: Target,
    look: &Look,
    keys: &[u32],
    steps: &mut Steps<L>,
) -> Result<Changed, AllocError>
    requires beside { IsBeside membership }
    requires from { floor_of items.now.keep items.now.revision ≤ look.now.base }
    requires to { look.now.base ≤ items.now.revision }
    ensures rows { IfOk result (λ changed. (bs : List (List Edit))
        → TellsSince bs items.now target membership.entry look.now.base
        → keyed changed.rows.items ≡ pairs_at (listed_at bs target look.now) keys.now) }
    ensures gone { IfOk result (λ changed. (bs : List (List Edit))
        → TellsSince bs items.now target membership.entry look.now.base
        → changed.gone.items ≡ filter (is_deleted bs target look.now) keys.now) }
    ensures members { IfOk result
        (λ changed. AllOf (λ row. row.member ≡ member_of target (key_of row)) changed.rows.items) }
    ensures cost { steps.new ≤ steps.old + 2 * length keys.now }
{
    let shown = ShownProperties::of(&look.meta);
    let mut rows = Vec::new(alloc);
    let mut gone = Vec::new(alloc);
    for key in keys {
        let change = change_at(items, membership, look, shown.as_slice(), *key, steps);
        push_listed(&mut rows, items, target, *key, change)?;
        push_gone(&mut gone, *key, change)?;
    }
    Ok(Changed { rows, gone })
}

/// Returns what became of one key if the look shows these properties.
fn change_at<'a, L: Ledger>(
    items: &'a ItemStore,
    membership: Membership<'_>,
    look: &Look,
    shown: &[Property],
    key: u32,
    steps: &mut Steps<L>,
) -> Change<'a>
    requires beside { IsBeside membership }
    requires shown { shown.now ≡ asked look.now.meta }
    requires from { floor_of items.now.keep items.now.revision ≤ look.now.base }
    requires to { look.now.base ≤ items.now.revision }
    ensures change { (bs : List (List Edit)) (target : Target)
        → TellsSince bs items.now target membership.entry look.now.base
        → IsChange bs target look.now key result }
    ensures cost { steps.new ≤ steps.old + 2 }
{
    let query = look.query.as_ref();
    let was = row_then(items, membership, query, key, look.base, steps);
    let is = row_now(items, membership, query, key, steps);
    change_between(was, is, shown)
}

/// Returns the change from the row at the base to the row now.
fn change_between<'a>(was: Option<&Row>, is: Option<&'a Row>, shown: &[Property]) -> Change<'a>
    ensures listed { (member : Option ℕ)
        → listed_in result ≡ option_and_then
        (unless_shown member shown.now (option_copied was.entry)) (option_copied is.entry) }
    ensures deleted { is_deletion result
        ≡ (is_none (option_copied is.entry) && is_some (option_copied was.entry)) }
{
    match was {
        None => match is {
            None => Change::Unchanged,
            Some(row) => Change::Listed(row),
        },
        Some(old) => match is {
            None => Change::Gone,
            Some(row) if is_shown_alike(old, row, shown) => Change::Unchanged,
            Some(row) => Change::Listed(row),
        },
    }
}

/// Returns the row under a key now, if the query selects it.
fn row_now<'a, L: Ledger>(
    items: &'a ItemStore,
    membership: Membership<'_>,
    query: Option<&Query>,
    key: u32,
    steps: &mut Steps<L>,
) -> Option<&'a Row>
    requires { IsBeside membership }
    ensures row { (bs : List (List Edit)) (target : Target)
        → Tells bs items.now target membership.entry
        → option_copied result ≡ row_at (edits bs) target (option_copied query.entry) key }
    ensures cost { steps.new ≤ steps.old + 1 }
{
    let id = item_under(items, membership, key)?;
    if_asked(query, items.get(id), steps)
}

/// Returns the row under a key at a kept base, if the query selects it.
fn row_then<'a, L: Ledger>(
    items: &'a ItemStore,
    membership: Membership<'_>,
    query: Option<&Query>,
    key: u32,
    base: u32,
    steps: &mut Steps<L>,
) -> Option<&'a Row>
    requires beside { IsBeside membership }
    requires from { floor_of items.now.keep items.now.revision ≤ base }
    requires to { base ≤ items.now.revision }
    ensures row { (bs : List (List Edit)) (target : Target)
        → TellsSince bs items.now target membership.entry base
        → option_copied result ≡ row_at (edits (up_to bs base)) target (option_copied query.entry) key }
    ensures cost { steps.new ≤ steps.old + 1 }
{
    let id = item_then(membership, key, base)?;
    if_asked(query, items.version_at(id, base), steps)
}

fn if_asked<'a, L: Ledger>(
    query: Option<&Query>,
    row: Option<&'a Row>,
    steps: &mut Steps<L>,
) -> Option<&'a Row>
    ensures row { option_copied result
        ≡ option_and_then (if_selected (option_copied query.entry)) (option_copied row.entry) }
    ensures cost { steps.new ≤ steps.old + 1 }
{
    let row = row?;
    if is_selected(query, row, steps) {
        Some(row)
    } else {
        None
    }
}

/// Adds the row that a change lists.
fn push_listed(
    rows: &mut Vec<PlanRow>,
    items: &ItemStore,
    target: Target,
    key: u32,
    change: Change<'_>,
) -> Result<(), AllocError>
    ensures rows { OnOk result ((bs : List (List Edit)) (look : PlainLook) → StandsFor bs items.now
        → IsChange bs target look key change.entry
        → keyed rows.new.items ≡ keyed rows.old.items ++ pairs_at (listed_at bs target look) (key ∷ [])) }
    ensures members { AllOf (λ row. row.member ≡ member_of target (key_of row)) rows.old.items
        → AllOf (λ row. row.member ≡ member_of target (key_of row)) rows.new.items }
{
    match change {
        Change::Listed(row) => push_shared(rows, items, target, key, row.id),
        Change::Unchanged | Change::Gone => Ok(()),
    }
}

/// Adds the item of an id under its key.
fn push_shared(
    rows: &mut Vec<PlanRow>,
    items: &ItemStore,
    target: Target,
    key: u32,
    id: u32,
) -> Result<(), AllocError>
    ensures rows { OnOk result ((bs : List (List Edit)) (row : ItemRow) → StandsFor bs items.now
        → in_target (edits bs) target key ≡ Some row → id ≡ row.id
        → keyed rows.new.items ≡ keyed rows.old.items ++ (key, row) ∷ []) }
    ensures members { AllOf (λ row. row.member ≡ member_of target (key_of row)) rows.old.items
        → AllOf (λ row. row.member ≡ member_of target (key_of row)) rows.new.items }
{
    let Some(row) = items.shared(id)? else {
        return Ok(());
    };
    let member = member_of(target, key);
    rows.push(PlanRow { member, row })?;
    Ok(())
}

/// Adds the key, if its row is gone.
fn push_gone(gone: &mut Vec<u32>, key: u32, change: Change<'_>) -> Result<(), AllocError>
    ensures gone { OnOk result ((bs : List (List Edit)) (target : Target) (look : PlainLook)
        → IsChange bs target look key change.entry
        → gone.new.items ≡ gone.old.items ++ filter (is_deleted bs target look) (key ∷ [])) }
{
    match change {
        Change::Gone => {
            gone.push(key)?;
            Ok(())
        }
        Change::Unchanged | Change::Listed(_) => Ok(()),
    }
}

//! Plans the full listing of all items from the sheets of the store.

ghost use Rattle.std.specs.Prelude.{◌≡◌, ℕ, List, true, None, IfOk};
ghost use Rattle.item_model.specs.declared.changes.Edit.{Edit};
ghost use Rattle.item_model.specs.declared.item.Row.{Row};
ghost use Rattle.item_model.specs.declared.request.Range.{Range};
ghost use Rattle.item_store.specs.Stands.{StandsFor};
ghost use Rattle.listing_plan.specs.declared.plan.Plan.TheVariants.{Rows};
ghost use Rattle.share_history.specs.Listings.{full_listing};
ghost use Rattle.share_history.specs.Ranges.{in_range};
ghost use Rattle.share_listings.specs.Answers.{HasFew, is_library};

use crate::ranges::{has_all, window_of};
use crate::sheets::rows_within;
use item_model::{Look, Meta, Range, Target};
use item_store::ItemStore;
use listing_plan::Plan;
use std::alloc::{AllocError, Global};

/// Plans those in the range of the look, which has no query. It reads no row outside of the range.
pub(crate) fn unselected(
    alloc: Global,
    items: &ItemStore,
    target: Target,
    look: Look,
) -> Result<Plan, AllocError>
    requires few { HasFew items.now }
    requires all { is_library target ≡ true }
    requires query { look.query ≡ None }
    ensures { IfOk result (λ plan. (bs : List (List Edit)) → StandsFor bs items.now
        → plan ≡ Rows (record { target = target; listing = full_listing bs target look })) }
{
    plan_range(alloc, items, target, look.range, look.meta)
}

// Plans those in a range.
fn plan_range(
    alloc: Global,
    items: &ItemStore,
    target: Target,
    range: Range,
    meta: Meta,
) -> Result<Plan, AllocError>
    requires few { HasFew items.now }
    requires all { is_library target ≡ true }
    ensures { IfOk result (λ plan. (bs : List (List Edit)) → StandsFor bs items.now
        → plan ≡ Rows (record { target = target; listing = full_listing bs target (record { query = None; meta = meta; base = 0; range = range }) })) }
{
    if has_all(range) {
        return whole(items, target, meta);
    }
    part(alloc, items, target, range, meta)
}

// Plans all of them. It shares their sheets and reads no row.
fn whole(items: &ItemStore, target: Target, meta: Meta) -> Result<Plan, AllocError>
    requires few { HasFew items.now }
    requires all { is_library target ≡ true }
    ensures { IfOk result (λ plan. (bs : List (List Edit)) (range : Range) → StandsFor bs items.now
        → ((rows : List (ℕ × Row)) → in_range range rows ≡ rows)
        → plan ≡ Rows (record { target = target; listing = full_listing bs target (record { query = None; meta = meta; base = 0; range = range }) })) }
{
    let rows = items.sheets()?;
    Ok(Plan::sheets(target, items.revision(), rows, meta))
}

// Plans those in a range by reading them.
fn part(
    alloc: Global,
    items: &ItemStore,
    target: Target,
    range: Range,
    meta: Meta,
) -> Result<Plan, AllocError>
    requires few { HasFew items.now }
    requires all { is_library target ≡ true }
    ensures { IfOk result (λ plan. (bs : List (List Edit)) → StandsFor bs items.now
        → plan ≡ Rows (record { target = target; listing = full_listing bs target (record { query = None; meta = meta; base = 0; range = range }) })) }
{
    let rows = items.rows();
    let total = rows.len();
    let listed = rows_within(alloc, rows, target, window_of(range, total))?;
    Ok(Plan::full(target, items.revision(), total, listed, meta))
}

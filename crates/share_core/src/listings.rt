//! Listings of the rows of a target.

ghost use Rattle.std.specs.Prelude.{◌≡◌, ◌≤◌, ◌+◌, ℕ, List, Option, Some, None, true, false, option_copied, option_map, IfOk, IfSome};
ghost use Rattle.item_model.specs.declared.changes.Edit.{Edit};
ghost use Rattle.item_model.specs.declared.changes.Entry.{Entry};
ghost use Rattle.listing_plan.specs.declared.plan.Plan.TheVariants.{Rows};
ghost use Rattle.share_history.specs.Bodies.{listing_body};
ghost use Rattle.share_history.specs.Histories.{all_edits, batches, edits};
ghost use Rattle.share_history.specs.Listings.{listing};
ghost use Rattle.share_history.specs.Rows.{is_there};
ghost use Rattle.item_store.specs.Stands as item_store;
ghost use Rattle.share_listings.specs.Answers.{StartFrom};
ghost use Rattle.share_replies.specs.Replies.{Nothing, Tagged};
ghost use Rattle.share_core.specs.Contents.{IsContent};
ghost use Rattle.share_core.specs.Held.{AreHeld};
ghost use Rattle.share_core.specs.Ticks.{starts, row_ticks};
ghost use Rattle.share_core.specs.Listed.{rows_content};

use crate::answer::ReplyContent;
use crate::contents::nothing;
use crate::stores::Stores;
use item_model::{Look, Query, Target};
use listing_plan::Plan;
use share_asks::BodyForm;
use share_listings::{is_there, listing};
use song_query::Steps;
use std::alloc::{AllocError, Global};
use std::sync::ledger::Ledger;

/// Returns the ids of the items that may match the query, if the index can narrow them.
pub(crate) fn candidates(
    stores: &Stores,
    query: Option<&Query>,
) -> Result<Option<Vec<u32>>, AllocError>
    ensures start { IfOk result (λ found. (h : List Entry) → AreHeld h stores.now
        → StartFrom (all_edits h) (option_copied query.entry)
        (option_map (λ ids. ids.items) found)) }
    ensures found { IfOk result (λ found. (h : List Entry) → AreHeld h stores.now
        → option_map (λ ids. ids.items) found ≡ starts (all_edits h) (option_copied query.entry)) }
{
    match query {
        Some(query) => stores.index.candidates(query),
        None => Ok(None),
    }
}

fn slice_of(ids: &Option<Vec<u32>>) -> Option<&[u32]>
    ensures { option_copied result ≡ option_map (λ list. list.items) ids.now }
{
    match ids {
        Some(list) => Some(list.as_slice()),
        None => None,
    }
}

/// Returns the rows of `target` that `look` selects, or 404 if the target does not exist.
pub(crate) fn rows<L: Ledger>(
    alloc: Global,
    stores: &Stores,
    target: Target,
    look: &Look,
    steps: &mut Steps<L>,
) -> Result<ReplyContent, AllocError>
    requires held { (h : List Entry) × AreHeld h stores.now }
    requires keep { stores.now.lists.keep ≡ stores.now.items.keep }
    ensures content { IfOk result (λ content. (h : List Entry) → AreHeld h stores.now
        → IsContent (rows_content stores.now.items.keep h target look.now) content) }
    ensures cost { (h : List Entry) → AreHeld h stores.now
        → steps.new ≤ steps.old + row_ticks stores.now.items.keep h target look.now }
{
    if !is_there(&stores.lists, target) {
        return Ok(nothing(404));
    }
    let plan = plan_listing(alloc, stores, target, look, steps)?;
    Ok(ReplyContent {
        status: 200,
        form: BodyForm::Dmap,
        plan,
    })
}

fn plan_listing<L: Ledger>(
    alloc: Global,
    stores: &Stores,
    target: Target,
    look: &Look,
    steps: &mut Steps<L>,
) -> Result<Plan, AllocError>
    requires held { (h : List Entry) × AreHeld h stores.now }
    requires keep { stores.now.lists.keep ≡ stores.now.items.keep }
    ensures plan { IfOk result (λ plan. (h : List Entry) → AreHeld h stores.now
        → plan ≡ Rows (record { target = target; listing = listing stores.now.items.keep (batches h) target look.now })) }
    ensures cost { (h : List Entry) → AreHeld h stores.now
        → steps.new ≤ steps.old + row_ticks stores.now.items.keep h target look.now }
{
    let found = candidates(stores, look.query.as_ref())?;
    let own = look.copy()?;
    let from = slice_of(&found);
    listing(
        alloc,
        &stores.items,
        &stores.lists,
        target,
        own,
        from,
        steps,
    )
}

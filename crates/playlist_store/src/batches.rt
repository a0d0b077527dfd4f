//! Applying and reverting one batch.

ghost use Rattle.std.specs.Prelude.{◌≡◌, ◌≤◌, ◌<◌, ◌+◌, ◌++◌, ◌∷◌, [], ℕ, List, ◌⊎◌, OnOk, OnErr};
ghost use Rattle.std.specs.Option.{option_map_or};
ghost use Rattle.std.specs.List.{sum_by};
ghost use Rattle.item_model.specs.declared.changes.Edit.{Edit};
ghost use Rattle.item_store.specs.Stands.{StandsFor, named_items};
ghost use Rattle.share_history.specs.Histories.{edits};
ghost use Rattle.playlist_store.specs.Names.{Names, names_of};
ghost use Rattle.playlist_store.specs.Lists.{Lists as KeptLists, top, since_of};
ghost use Rattle.playlist_store.specs.Changes.{Everywhere, Frames, Tells, Taken, StepsBack, TestsRule, LeavesRule, TakesBack, ticks_in, allowed};

use crate::back::take_back;
use crate::edits::take_in;
use crate::lists::Lists;
use crate::named::Named;
use crate::names::{has_rule_put, names_of};
use crate::rules::test_lists;
use item_model::Edit;
use item_store::ItemStore;
use song_query::Steps;
use std::alloc::{AllocError, Global};
use std::collections::VecDeque;
use std::sync::ledger::Ledger;

// Applies a batch that makes `revision`. After an `Err` what was applied is reverted.
pub(crate) fn take_in_batch<L: Ledger>(
    alloc: Global,
    lists: &mut Lists,
    named: &mut VecDeque<Named>,
    batch: &[Edit],
    revision: u32,
    items: &ItemStore,
    steps: &mut Steps<L>,
) -> Result<(), AllocError>
    requires { 1 ≤ revision }
    ensures named { OnOk result (named.new.items ≡ named.old.items ++ names_of batch.now ∷ []) }
    ensures named_left { OnErr result (named.new.items ≡ named.old.items) }
    ensures taken { OnOk result ((bs : List (List Edit)) (es : List Edit) → StandsFor bs items.now
        → edits bs ≡ es ++ batch.now → ((c : ℕ) → since_of (top lists.old.entries c) < revision)
        → Tells revision es [] lists.old.entries lists.old.entries → Taken revision (edits bs) batch.now lists.old.entries lists.new.entries) }
    ensures frames { OnOk result (Frames revision batch.now lists.old.entries lists.new.entries) }
    ensures left { OnErr result ((lists.new.entries ≡ lists.old.entries)
        ⊎ StepsBack revision batch.now lists.old.entries lists.new.entries) }
    ensures cost { (bs : List (List Edit)) (most : List (ℕ × ℕ)) → StandsFor bs items.now
        → ((mid : KeptLists) → ((es : List Edit) → Tells revision es [] lists.old.entries lists.old.entries → Tells revision (es ++ batch.now) batch.now lists.old.entries mid)
        → (c : ℕ) → option_map_or (ticks_in revision (edits bs) (named_items batch.now)) (top mid c) 0 ≤ allowed c most)
        → steps.new ≤ steps.old + sum_by (λ e. e.1) most }
{
    let names = match names_of(alloc, batch) {
        Ok(names) => names,
        Err(error) => return Err(error),
    };
    match named.reserve(1) {
        Ok(()) => {}
        Err(error) => return Err(error),
    }
    match take_in_all(
        alloc,
        lists,
        batch,
        names.items.as_slice(),
        revision,
        items,
        steps,
    ) {
        Ok(()) => {
            named.push_back_reserved(names);
            Ok(())
        }
        Err(error) => {
            take_back(lists, &names, revision);
            Err(error)
        }
    }
}

// Applies the edits, and then evaluates rules on the items that they name. After an `Err` a part is applied.
fn take_in_all<L: Ledger>(
    alloc: Global,
    lists: &mut Lists,
    batch: &[Edit],
    ids: &[u32],
    revision: u32,
    items: &ItemStore,
    steps: &mut Steps<L>,
) -> Result<(), AllocError>
    requires some { 1 ≤ revision }
    requires ids { ids.now ≡ named_items batch.now }
    ensures taken { OnOk result ((bs : List (List Edit)) (es : List Edit) → StandsFor bs items.now
        → edits bs ≡ es ++ batch.now → ((c : ℕ) → since_of (top lists.old.entries c) < revision)
        → Tells revision es [] lists.old.entries lists.old.entries → Taken revision (edits bs) batch.now lists.old.entries lists.new.entries) }
    ensures frames { Frames revision batch.now lists.old.entries lists.new.entries }
    ensures cost { (bs : List (List Edit)) (most : List (ℕ × ℕ)) → StandsFor bs items.now
        → ((mid : KeptLists) → ((es : List Edit) → Tells revision es [] lists.old.entries lists.old.entries → Tells revision (es ++ batch.now) batch.now lists.old.entries mid)
        → (c : ℕ) → option_map_or (ticks_in revision (edits bs) ids.now) (top mid c) 0 ≤ allowed c most)
        → steps.new ≤ steps.old + sum_by (λ e. e.1) most }
{
    match take_in(alloc, lists, batch, revision) {
        Ok(()) => {}
        Err(error) => return Err(error),
    }
    // no rule can have another result
    if ids.is_empty() && !has_rule_put(batch) {
        return Ok(());
    }
    test_lists(lists, ids, revision, items, steps)
}

// Reverts the last batch, which made `revision`.
pub(crate) fn take_back_batch(lists: &mut Lists, named: &mut VecDeque<Named>, revision: u32)
    ensures named { (front : List Names) (names : Names) → named.old.items ≡ front ++ names ∷ []
        → named.new.items ≡ front }
    ensures lists { 1 ≤ revision → (front : List Names) (names : Names)
        → named.old.items ≡ front ++ names ∷ []
        → TakesBack revision names lists.old.entries lists.new.entries }
{
    match named.pop_back() {
        Some(names) => take_back(lists, &names, revision),
        None => {}
    }
}

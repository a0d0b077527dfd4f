//! Evaluating rules after the edits of a batch.

ghost use Rattle.std.specs.Prelude.{◌≡◌, ◌≤◌, ◌<◌, ◌+◌, ℕ, List, ◌&&◌, ◌==◌, false, nat_le, length, OnOk, OnErr, if◌then◌else◌};
ghost use Rattle.std.specs.Option.{option_map_or};
ghost use Rattle.std.specs.List.{sum_by};
ghost use Rattle.item_model.specs.declared.changes.Edit.{Edit};
ghost use Rattle.item_store.specs.Stands.{StandsFor};
ghost use Rattle.key_versions.specs.Held.{at, value_at, is_among};
ghost use Rattle.share_history.specs.Histories.{edits};
ghost use Rattle.share_history.specs.LastSaid.{item_at};
ghost use Rattle.share_history.specs.Rows.{library};
ghost use Rattle.playlist_store.specs.Words.{ruled};
ghost use Rattle.playlist_store.specs.Lists.{top};
ghost use Rattle.playlist_store.specs.Changes.{ChangesOne, Everywhere, TestsRule, LeavesRule, tested_ids, ticks_in, allowed};

use crate::kept::ListVersion;
use crate::lists::Lists;
use item_model::Query;
use item_store::ItemStore;
use key_versions::{Versions, next_key};
use song_query::{Steps, matches};
use std::alloc::AllocError;
use std::sync::ledger::Ledger;

// Evaluates the rule of each smart playlist: on the items of `ids`, or on all items if the list is new at `revision`.
pub(crate) fn test_lists<L: Ledger>(
    lists: &mut Lists,
    ids: &[u32],
    revision: u32,
    items: &ItemStore,
    steps: &mut Steps<L>,
) -> Result<(), AllocError>
    ensures tests { OnOk result ((bs : List (List Edit)) → StandsFor bs items.now
        → Everywhere (TestsRule revision (edits bs) ids.now) lists.old.entries lists.new.entries) }
    ensures leaves { Everywhere (LeavesRule revision ids.now) lists.old.entries lists.new.entries }
    ensures cost { (bs : List (List Edit)) (most : List (ℕ × ℕ)) → StandsFor bs items.now
        → ((c : ℕ) → option_map_or (ticks_in revision (edits bs) ids.now) (top lists.old.entries c) 0 ≤ allowed c most)
        → steps.new ≤ steps.old + sum_by (λ e. e.1) most }
{
    let mut last = None;
    while let Some(id) = next_key(lists, last) {
        match test_list(lists, id, ids, revision, items, steps) {
            Ok(()) => {}
            Err(error) => return Err(error),
        }
        last = Some(id);
    }
    Ok(())
}

fn test_list<L: Ledger>(
    lists: &mut Lists,
    id: u32,
    ids: &[u32],
    revision: u32,
    items: &ItemStore,
    steps: &mut Steps<L>,
) -> Result<(), AllocError>
    ensures tests { OnOk result ((bs : List (List Edit)) → StandsFor bs items.now
        → ChangesOne id (TestsRule revision (edits bs) ids.now) lists.old.entries
        lists.new.entries) }
    ensures leaves { ChangesOne id
        (LeavesRule revision ids.now) lists.old.entries lists.new.entries }
    ensures cost { (bs : List (List Edit)) → StandsFor bs items.now
        → steps.new ≤ steps.old + option_map_or (ticks_in revision (edits bs) ids.now)
        (top lists.old.entries id) 0 }
{
    match lists.get_mut(&id) {
        Some(list) => test_kept(&mut list.now, ids, revision, items, steps),
        None => Ok(()),
    }
}

fn test_kept<L: Ledger>(
    kept: &mut ListVersion,
    ids: &[u32],
    revision: u32,
    items: &ItemStore,
    steps: &mut Steps<L>,
) -> Result<(), AllocError>
    ensures tests { OnOk result ((bs : List (List Edit)) → StandsFor bs items.now
        → TestsRule revision (edits bs) ids.now kept.old kept.new) }
    ensures leaves { LeavesRule revision ids.now kept.old kept.new }
    ensures cost { (bs : List (List Edit)) → StandsFor bs items.now
        → steps.new ≤ steps.old + ticks_in revision (edits bs) ids.now kept.old }
{
    let is_new = kept.since == revision;
    match &kept.head {
        Some(head) => match &head.rule {
            Some(rule) => {
                test_rule(rule, is_new, &mut kept.members, ids, revision, items, steps)
            }
            None => Ok(()),
        },
        None => Ok(()),
    }
}

fn test_rule<L: Ledger>(
    rule: &Query,
    is_new: bool,
    members: &mut Versions<u32>,
    ids: &[u32],
    revision: u32,
    items: &ItemStore,
    steps: &mut Steps<L>,
) -> Result<(), AllocError>
    ensures tests { OnOk result ((bs : List (List Edit)) → StandsFor bs items.now → (key base : ℕ)
        → value_at members.new key base ≡ (if is_among key (tested_ids is_new (edits bs) ids.now) && nat_le revision base then ruled rule.now key (item_at (edits bs) key) else value_at members.old key base)) }
    ensures below { (key base : ℕ) → base < revision
        → value_at members.new key base ≡ value_at members.old key base }
    ensures others { is_new ≡ false → (key base : ℕ) → is_among key ids.now ≡ false
        → value_at members.new key base ≡ value_at members.old key base }
    ensures cost { (bs : List (List Edit)) → StandsFor bs items.now
        → steps.new ≤ steps.old + length (tested_ids is_new (edits bs) ids.now) }
{
    if !is_new {
        return test_ids(rule, members, ids, revision, items, steps);
    }
    match items.ids() {
        Ok(all) => test_ids(rule, members, all.as_slice(), revision, items, steps),
        Err(error) => Err(error),
    }
}

fn test_ids<L: Ledger>(
    rule: &Query,
    members: &mut Versions<u32>,
    ids: &[u32],
    revision: u32,
    items: &ItemStore,
    steps: &mut Steps<L>,
) -> Result<(), AllocError>
    ensures tests { OnOk result ((bs : List (List Edit)) → StandsFor bs items.now → (key base : ℕ)
        → value_at members.new key base ≡ (if is_among key ids.now && nat_le revision base then ruled rule.now key (item_at (edits bs) key) else value_at members.old key base)) }
    ensures below { (key base : ℕ) → base < revision
        → value_at members.new key base ≡ value_at members.old key base }
    ensures others { (key base : ℕ) → is_among key ids.now ≡ false
        → value_at members.new key base ≡ value_at members.old key base }
    ensures cost { steps.new ≤ steps.old + length ids.now }
{
    for id in ids {
        match test_id(rule, members, *id, revision, items, steps) {
            Ok(()) => {}
            Err(error) => return Err(error),
        }
    }
    Ok(())
}

fn test_id<L: Ledger>(
    rule: &Query,
    members: &mut Versions<u32>,
    id: u32,
    revision: u32,
    items: &ItemStore,
    steps: &mut Steps<L>,
) -> Result<(), AllocError>
    ensures tests { OnOk result ((bs : List (List Edit)) → StandsFor bs items.now → (key base : ℕ)
        → value_at members.new key base ≡ (if (id == key) && nat_le revision base then ruled rule.now key (item_at (edits bs) key) else value_at members.old key base)) }
    ensures below { (key base : ℕ) → base < revision
        → value_at members.new key base ≡ value_at members.old key base }
    ensures others { (key base : ℕ) → (id == key) ≡ false
        → value_at members.new key base ≡ value_at members.old key base }
    ensures cost { steps.new ≤ steps.old + 1 }
{
    let item = ruled(rule, id, items, steps);
    members.put_number(id, revision, item)
}

// Returns `id` if the rule matches its item.
fn ruled<L: Ledger>(rule: &Query, id: u32, items: &ItemStore, steps: &mut Steps<L>) -> Option<u32>
    ensures ruled { (bs : List (List Edit)) → StandsFor bs items.now
        → result ≡ ruled rule.now id (item_at (edits bs) id) }
    ensures cost { steps.new ≤ steps.old + 1 }
{
    match items.get(id) {
        Some(row) => {
            if matches(rule, row, steps) {
                return Some(id);
            }
            None
        }
        None => None,
    }
}
